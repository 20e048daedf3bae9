//! Whether lists make a vocabulary or a model.

ghost use Rattle.std.specs.Prelude.{◌≡◌, ◌↔◌, ◌==◌, nat_lt, length, IsTrue, IsSome, IfSome};
ghost use Rattle.std.specs.List.{list_all, range_with_len};
ghost use Rattle.std.specs.Cmp.Lexicographic.{pointwise};
ghost use Rattle.model_kit.specs.Same.{same_numbers, same_term, same_atom, same_schema_atom};
ghost use Rattle.model_kit.specs.Types.{is_of_type as type_below};
ghost use Rattle.model_kit.specs.Words.{is_typed, same_name, is_first, are_types, is_signature};
ghost use Rattle.model_kit.specs.Words.{same_word, is_no_total, is_vocabulary};
ghost use Rattle.model_kit.specs.Vocabulary.{is_ground_atom, is_schema_atom};
ghost use Rattle.model_kit.specs.Features.{is_cost, is_schema, is_value, same_key, is_action};
ghost use Rattle.model_kit.specs.Features.{is_model};
ghost use Rattle.model_kit.specs.Checked.{HasWords, HasFeatures};

use crate::entries::{Entry, do_pass};
use crate::fitting::{do_objects_fit, do_terms_fit, is_name, is_of_type};
use crate::{CostExpr, GroundAtom, Model, Schema, SchemaAtom, Signature, Term, Vocabulary};
use mre_base::{List, Text};

impl Vocabulary {
    /// The vocabulary with these lists, if they make one. Types are numbered by their places.
    pub fn checked(
        types: List<(Text, u32)>,
        objects: List<(Text, u32)>,
        predicates: List<Signature>,
        functions: List<Signature>,
        actions: List<Signature>,
    ) -> Option<Vocabulary>
        ensures some { IsSome result ↔ IsTrue (is_vocabulary types objects predicates functions
            actions) }
        ensures lists { IfSome result (HasWords types objects predicates functions actions) }
    {
        if is_begun(&types)
            && do_pass(&types, &types)
            && do_end(&types)
            && do_pass(&objects, &types)
            && do_pass(&predicates, &types)
            && do_pass(&functions, &types)
            && has_no_total(&functions)
            && do_pass(&actions, &types)
        {
            Some(Vocabulary {
                types,
                objects,
                predicates,
                functions,
                actions,
            })
        } else {
            None
        }
    }
}

// Whether the first type is `object` and its own parent.
fn is_begun(types: &List<(Text, u32)>) -> bool
    ensures { result ≡ is_first types.now }
{
    if types.is_empty() {
        return false;
    }
    let first = types.item(0);
    first.0.bytes() == b"object".as_slice() && first.1 == 0
}

// Whether each chain of parents ends at `object`.
fn do_end(types: &List<(Text, u32)>) -> bool
    ensures { result ≡ list_all (λ type. type_below types.now type 0) (range_with_len 0
        (length types.now)) }
{
    for number in 0..types.len() {
        if !is_of_type(types, number, 0) {
            return false;
        }
    }
    true
}

fn has_no_total(functions: &List<Signature>) -> bool
    ensures { result ≡ list_all is_no_total functions.now }
{
    for place in 0..functions.len() {
        if !is_another_word(functions.item(place)) {
            return false;
        }
    }
    true
}

// Whether a function's name isn't the one that is kept for the sum of all costs.
fn is_another_word(function: &Signature) -> bool
    ensures { result ≡ is_no_total function.now }
{
    function.name.bytes() != b"total-cost".as_slice()
}

impl Entry<List<(Text, u32)>> for (Text, u32) {
    ghost passes = { is_typed };

    ghost same = { same_name };

    fn does_pass(&self, types: &List<(Text, u32)>) -> bool {
        is_name(self.0.bytes()) && (self.1 as usize) < types.len()
    }

    fn is_same(&self, other: &(Text, u32)) -> bool {
        self.0.bytes() == other.0.bytes()
    }
}

impl Entry<List<(Text, u32)>> for Signature {
    ghost passes = { is_signature };

    ghost same = { same_word };

    fn does_pass(&self, types: &List<(Text, u32)>) -> bool {
        is_name(self.name.bytes()) && are_below(self.params.as_slice(), types.len())
    }

    fn is_same(&self, other: &Signature) -> bool {
        self.name.bytes() == other.name.bytes()
    }
}

fn are_below(numbers: &[u32], bound: usize) -> bool
    ensures { result ≡ list_all (λ n. nat_lt n bound) numbers.now }
{
    numbers.iter().all(|n| (*n as usize) < bound)
}

impl Model {
    /// The model with this vocabulary and these lists, if they make one.
    pub fn checked(
        words: Vocabulary,
        init: List<GroundAtom>,
        goal: List<GroundAtom>,
        schemas: List<Schema>,
        values: List<(u32, List<u32>, u32)>,
        unknown: List<u32>,
    ) -> Option<Model>
        ensures some { IsSome result ↔ IsTrue (is_model words init goal schemas values unknown) }
        ensures lists { IfSome result (HasFeatures words init goal schemas values unknown) }
    {
        if do_pass(&init, &words)
            && do_pass(&goal, &words)
            && are_schemas_of(&words, &schemas)
            && do_pass(&values, &words)
            && do_pass(&unknown, &words)
        {
            Some(Model {
                words,
                init,
                goal,
                schemas,
                values,
                unknown,
            })
        } else {
            None
        }
    }
}

impl Entry<Vocabulary> for GroundAtom {
    ghost passes = { is_ground_atom };

    ghost same = { same_atom };

    fn does_pass(&self, words: &Vocabulary) -> bool {
        do_objects_fit(words, &words.predicates, self.predicate, &self.objects)
    }

    fn is_same(&self, other: &GroundAtom) -> bool {
        self == other
    }
}

impl Entry<Vocabulary> for (u32, List<u32>, u32) {
    ghost passes = { is_value };

    ghost same = { same_key };

    fn does_pass(&self, words: &Vocabulary) -> bool {
        do_objects_fit(words, &words.functions, self.0, &self.1)
    }

    fn is_same(&self, other: &(u32, List<u32>, u32)) -> bool {
        self.0 == other.0 && self.1.as_slice() == other.1.as_slice()
    }
}

impl Entry<Vocabulary> for u32 {
    ghost passes = { is_action };

    ghost same = { ◌==◌ };

    fn does_pass(&self, words: &Vocabulary) -> bool {
        (*self as usize) < words.actions.len()
    }

    fn is_same(&self, other: &u32) -> bool {
        *self == *other
    }
}

// A vocabulary, and the parameters of an action.
#[derive(Clone, Copy)]
struct Scope<'a> {
    words: &'a Vocabulary,
    params: &'a List<u32>,
}

impl<'a> Entry<Scope<'a>> for SchemaAtom {
    ghost passes = { λ scope atom. is_schema_atom scope.words.now scope.params.now atom };

    ghost same = { same_schema_atom };

    fn does_pass(&self, scope: &Scope<'a>) -> bool {
        do_terms_fit(
            scope.words,
            scope.params,
            &scope.words.predicates,
            self.predicate,
            &self.args,
        )
    }

    fn is_same(&self, other: &SchemaAtom) -> bool
        ensures { result ≡ same_schema_atom self.now other.now }
    {
        self.predicate == other.predicate && are_same_terms(&self.args, &other.args)
    }
}

/// Whether two lists of terms are equal.
pub fn are_same_terms(one: &List<Term>, other: &List<Term>) -> bool
    ensures { result ≡ pointwise same_term one.now other.now }
{
    if one.len() != other.len() {
        return false;
    }
    for place in 0..one.len() {
        if !is_same_term(*one.item(place), *other.item(place)) {
            return false;
        }
    }
    true
}

fn is_same_term(one: Term, other: Term) -> bool
    ensures { result ≡ same_term one other }
{
    match (one, other) {
        (Term::Param(i), Term::Param(j)) => i == j,
        (Term::Object(i), Term::Object(j)) => i == j,
        (Term::Param(_), Term::Object(_)) => false,
        (Term::Object(_), Term::Param(_)) => false,
    }
}

// Whether there is one schema for each action, in their order.
fn are_schemas_of(words: &Vocabulary, schemas: &List<Schema>) -> bool
    ensures { result ≡ pointwise (is_schema words.now) schemas.now words.now.actions }
{
    if schemas.len() != words.actions.len() {
        return false;
    }
    for place in 0..schemas.len() {
        if !is_schema_of(words, schemas.item(place), words.actions.item(place)) {
            return false;
        }
    }
    true
}

fn is_schema_of(words: &Vocabulary, schema: &Schema, action: &Signature) -> bool
    ensures { result ≡ is_schema words.now schema.now action.now }
{
    let scope = Scope {
        words,
        params: &action.params,
    };
    do_pass(&schema.pre, &scope)
        && do_pass(&schema.add, &scope)
        && do_pass(&schema.del, &scope)
        && is_cost_of(words, &action.params, &schema.cost)
}

pub(crate) fn is_cost_of(words: &Vocabulary, params: &List<u32>, cost: &CostExpr) -> bool
    ensures { result ≡ is_cost words.now params.now cost.now }
{
    match cost {
        CostExpr::Number(_) => true,
        CostExpr::Call { function, args } => {
            do_terms_fit(words, params, &words.functions, *function, args)
        }
    }
}
