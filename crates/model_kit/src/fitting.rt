//! What fits a vocabulary: names, types, objects, terms, signatures.

ghost use Rattle.std.specs.Prelude.{◌≡◌};
ghost use Rattle.std.specs.List.{list_all};
ghost use Rattle.std.specs.Cmp.Lexicographic.{pointwise};
ghost use Rattle.model_kit.specs.Names.{is_first_byte, is_later_byte, is_name as name_of_bytes};
ghost use Rattle.model_kit.specs.Types.{parent as parent_of, is_of_type as type_below};
ghost use Rattle.model_kit.specs.Vocabulary.{is_object_of as object_below};
ghost use Rattle.model_kit.specs.Vocabulary.{is_term_of as term_below, fits_signature};
ghost use Rattle.model_kit.specs.Vocabulary.{is_ground_action as is_ground_action_of};

use crate::{GroundAction, Signature, Term, Vocabulary};
use mre_base::{List, Text};

// Whether bytes are a name in lower case.
pub(crate) fn is_name(bytes: &[u8]) -> bool
    ensures { result ≡ name_of_bytes bytes.now }
{
    let Some((first, rest)) = bytes.split_first() else {
        return false;
    };
    begins_name(*first) && continue_name(rest)
}

fn continue_name(bytes: &[u8]) -> bool
    ensures { result ≡ list_all is_later_byte bytes.now }
{
    bytes.iter().all(|byte| continues_name(*byte))
}

// A digit, a small letter or the underscore.
#[tactic(auto, using(std::proofs::lemmas::Bool::Decides::nat_tests))]
fn begins_name(byte: u8) -> bool
    ensures { result ≡ is_first_byte byte }
{
    byte.is_ascii_digit() || byte.is_ascii_lowercase() || byte == b'_'
}

// A visible character other than a parenthesis, a semicolon or a capital.
#[tactic(auto, using(std::proofs::lemmas::Bool::Decides::nat_tests))]
fn continues_name(byte: u8) -> bool
    ensures { result ≡ is_later_byte byte }
{
    byte.is_ascii_graphic()
        && byte != b'('
        && byte != b')'
        && byte != b';'
        && !byte.is_ascii_uppercase()
}

// Whether a type is another or below it.
pub(crate) fn is_of_type(types: &List<(Text, u32)>, number: usize, above: u32) -> bool
    ensures { result ≡ type_below types.now number above }
{
    let mut current = number;
    for _ in 0..types.len() {
        if current == above as usize {
            return true;
        }
        current = parent(types, current);
    }
    current == above as usize
}

// The parent of a type, and `object` where no type has the number.
fn parent(types: &List<(Text, u32)>, number: usize) -> usize
    ensures { result ≡ parent_of types.now number }
{
    if number < types.len() {
        types.item(number).1 as usize
    } else {
        0
    }
}

/// Whether an object is of a type or of one below it.
pub fn is_object_of(words: &Vocabulary, object: u32, above: u32) -> bool
    ensures { result ≡ object_below words.now object above }
{
    (object as usize) < words.objects.len()
        && is_of_type(
            &words.types,
            words.objects.item(object as usize).1 as usize,
            above,
        )
}

// Whether a term of a schema with these parameters is of a type or of one below it.
fn is_term_of(words: &Vocabulary, params: &List<u32>, term: Term, above: u32) -> bool
    ensures { result ≡ term_below words.now params.now term above }
{
    match term {
        Term::Param(i) => {
            (i as usize) < params.len()
                && is_of_type(&words.types, *params.item(i as usize) as usize, above)
        }
        Term::Object(object) => is_object_of(words, object, above),
    }
}

/// Whether an action is a ground action of a vocabulary: its schema is listed, and its objects are
/// as many as the schema's parameters and of their types.
pub fn is_ground_action(words: &Vocabulary, action: &GroundAction) -> bool
    ensures { result ≡ is_ground_action_of words.now action.now }
{
    do_objects_fit(words, &words.actions, action.schema, &action.objects)
}

// Whether objects fit the signature with a number.
pub(crate) fn do_objects_fit(
    words: &Vocabulary,
    signatures: &List<Signature>,
    number: u32,
    objects: &List<u32>,
) -> bool
    ensures { result ≡ fits_signature (object_below words.now) signatures.now number objects.now }
{
    (number as usize) < signatures.len()
        && are_objects_of(words, objects, &signatures.item(number as usize).params)
}

fn are_objects_of(words: &Vocabulary, objects: &List<u32>, types: &List<u32>) -> bool
    ensures { result ≡ pointwise (object_below words.now) objects.now types.now }
{
    if objects.len() != types.len() {
        return false;
    }
    for place in 0..types.len() {
        if !is_object_of(words, *objects.item(place), *types.item(place)) {
            return false;
        }
    }
    true
}

// Whether terms of a schema with these parameters fit the signature with a number.
pub(crate) fn do_terms_fit(
    words: &Vocabulary,
    params: &List<u32>,
    signatures: &List<Signature>,
    number: u32,
    terms: &List<Term>,
) -> bool
    ensures { result ≡ fits_signature (term_below words.now
        params.now) signatures.now number terms.now }
{
    (number as usize) < signatures.len()
        && are_terms_of(
            words,
            params,
            terms,
            &signatures.item(number as usize).params,
        )
}

fn are_terms_of(
    words: &Vocabulary,
    params: &List<u32>,
    terms: &List<Term>,
    types: &List<u32>,
) -> bool
    ensures { result ≡ pointwise (term_below words.now params.now) terms.now types.now }
{
    if terms.len() != types.len() {
        return false;
    }
    for place in 0..types.len() {
        if !is_term_of(words, params, *terms.item(place), *types.item(place)) {
            return false;
        }
    }
    true
}
