//! Printed forms of atoms, actions, values and costs.

ghost use Rattle.std.specs.Prelude.{◌≡◌, ◌<◌, ◌++◌, IsTrue, IfOk, OnOk, ℕ, List, length, codes};
ghost use Rattle.std.specs.Prelude.{map};
ghost use Rattle.std.specs.String.{string_bytes};
ghost use Rattle.model_kit.specs.Vocabulary.{is_object_of, is_term_of, fits_signature};
ghost use Rattle.model_kit.specs.Vocabulary.{is_ground_atom, IsSchemaAtom, IsGroundAction};
ghost use Rattle.model_kit.specs.Features.{IsCost};
ghost use Rattle.model_kit.specs.Places.{Price};
ghost use Rattle.model_kit.specs.Printed.{name_of, object_name, term_form, form, atom_form};
ghost use Rattle.model_kit.specs.Printed.{schema_atom_form, action_form};
ghost use Rattle.model_kit.specs.Sentences.{content_form};

use crate::{CostExpr, GroundAction, GroundAtom, SchemaAtom, Signature, Term, Vocabulary};
use mre_base::{List, NoMemory, Text};
use std::alloc::Global;

/// The printed form of a ground atom, as `(road hub mill)`.
pub fn print_atom(alloc: Global, words: &Vocabulary, atom: &GroundAtom) -> Result<Text, NoMemory>
    requires { IsTrue (is_ground_atom words.now atom.now) }
    ensures ok { IfOk result (λ text. text ≡ atom_form words.now atom.now) }
{
    with_objects(
        alloc,
        words,
        &words.predicates,
        atom.predicate,
        &atom.objects,
    )
}

/// The printed form of a ground action, as `(drive hub mill)`.
pub fn print_action(
    alloc: Global,
    words: &Vocabulary,
    action: &GroundAction,
) -> Result<Text, NoMemory>
    requires { IsGroundAction words.now action.now }
    ensures ok { IfOk result (λ text. text ≡ action_form words.now action.now) }
{
    with_objects(alloc, words, &words.actions, action.schema, &action.objects)
}

/// The printed form of a function with objects, as `(road-length hub mill)`.
pub fn print_value(
    alloc: Global,
    words: &Vocabulary,
    function: u32,
    objects: &List<u32>,
) -> Result<Text, NoMemory>
    requires { IsTrue (fits_signature (is_object_of words.now) words.now.functions function
        objects.now) }
    ensures ok { IfOk result (λ text. text
        ≡ form (name_of words.now.functions function) (map (object_name words.now) objects.now)) }
{
    with_objects(alloc, words, &words.functions, function, objects)
}

/// The printed form of an atom of an action schema, as `(road ?1 mill)`. Parameters are counted
/// from 1.
pub fn print_schema_atom(
    alloc: Global,
    words: &Vocabulary,
    atom: &SchemaAtom,
) -> Result<Text, NoMemory>
    requires { IsSchemaAtom words.now atom.now }
    ensures ok { IfOk result (λ text. text ≡ schema_atom_form words.now atom.now) }
{
    with_terms(alloc, words, &words.predicates, atom.predicate, &atom.args)
}

/// The printed form of what an action costs: the number, or the function with its terms, as
/// `(road-length ?1 mill)`.
pub fn print_cost(alloc: Global, words: &Vocabulary, cost: &CostExpr) -> Result<Text, NoMemory>
    requires { IsCost words.now cost.now }
    ensures ok { IfOk result (λ text. text ≡ content_form words.now (Price cost.now)) }
{
    match cost {
        CostExpr::Number(number) => {
            let text = format!(in alloc; "{number}")?;
            Text::of(alloc, text.as_str())
        }
        CostExpr::Call { function, args } => {
            with_terms(alloc, words, &words.functions, *function, args)
        }
    }
}

// `(NAME A1 A2)` of the signature with a number and of objects.
fn with_objects(
    alloc: Global,
    words: &Vocabulary,
    signatures: &List<Signature>,
    number: u32,
    objects: &List<u32>,
) -> Result<Text, NoMemory>
    requires { IsTrue (fits_signature (is_object_of words.now) signatures.now number objects.now) }
    ensures ok { IfOk result (λ text. text
        ≡ form (name_of signatures.now number) (map (object_name words.now) objects.now)) }
{
    let mut text = opened(alloc, signatures, number)?;
    for &object in objects.as_slice() {
        push_object(&mut text, words, object)?;
    }
    closed(alloc, text)
}

// `(NAME T1 T2)` of the signature with a number and of terms of a schema.
fn with_terms(
    alloc: Global,
    words: &Vocabulary,
    signatures: &List<Signature>,
    number: u32,
    terms: &List<Term>,
) -> Result<Text, NoMemory>
    requires { (params : List ℕ) × IsTrue (fits_signature (is_term_of words.now params)
        signatures.now number terms.now) }
    ensures ok { IfOk result (λ text. text
        ≡ form (name_of signatures.now number) (map (term_form words.now) terms.now)) }
{
    let mut text = opened(alloc, signatures, number)?;
    for place in 0..terms.len() {
        push_term(&mut text, words, *terms.item(place))?;
    }
    closed(alloc, text)
}

// A text that begins with `(` and a name.
fn opened(alloc: Global, signatures: &List<Signature>, number: u32) -> Result<String, NoMemory>
    requires { number < length signatures.now }
    ensures ok { IfOk result (λ text. string_bytes text ≡ codes "("
        ++ name_of signatures.now number) }
{
    let mut text = String::from_str(alloc, "(")?;
    text.push_str(signatures.item(number as usize).name.as_str())?;
    Ok(text)
}

// Puts a blank and a term at the end.
fn push_term(text: &mut String, words: &Vocabulary, term: Term) -> Result<(), NoMemory>
    requires { (object : ℕ) → term ≡ Term.Object object → object < length words.now.objects }
    ensures ok { OnOk result (string_bytes text.new ≡ string_bytes text.old
        ++ (codes " " ++ term_form words.now term)) }
{
    match term {
        Term::Param(i) => {
            write!(text, " ?{}", u64::from(i) + 1)?;
            Ok(())
        }
        Term::Object(object) => push_object(text, words, object),
    }
}

// Puts a blank and an object's name at the end.
fn push_object(text: &mut String, words: &Vocabulary, object: u32) -> Result<(), NoMemory>
    requires { object < length words.now.objects }
    ensures ok { OnOk result (string_bytes text.new ≡ string_bytes text.old
        ++ (codes " " ++ object_name words.now object)) }
{
    text.push_str(" ")?;
    text.push_str(words.objects.item(object as usize).0.as_str())?;
    Ok(())
}

// The text with `)` at its end.
fn closed(alloc: Global, mut text: String) -> Result<Text, NoMemory>
    ensures ok { IfOk result (λ made. made ≡ string_bytes text ++ codes ")") }
{
    text.push_str(")")?;
    Text::of(alloc, text.as_str())
}
