//! The printed forms of names, atoms and costs. A number without a name is printed as `?`.
use model_kit::{CostExpr, SchemaAtom, Signature, Term, Vocabulary};
use mre_base::{List, NoMemory, Text};

/// The name of a type or an object.
pub fn entry_name(entries: &List<(Text, u32)>, number: u32) -> &str {
    let place = number as usize;
    if place < entries.len() {
        entries.item(place).0.as_str()
    } else {
        "?"
    }
}

// The name of a predicate, a function or an action.
fn word_name(signatures: &List<Signature>, number: u32) -> &str {
    let place = number as usize;
    if place < signatures.len() {
        signatures.item(place).name.as_str()
    } else {
        "?"
    }
}

/// Appends a name with the types of its parameters, as `at (truck place)`.
pub fn put_signature(
    text: &mut String,
    types: &List<(Text, u32)>,
    signature: &Signature,
) -> Result<(), NoMemory> {
    write!(text, "{} (", signature.name.as_str())?;
    for place in 0..signature.params.len() {
        if place > 0 {
            write!(text, " ")?;
        }
        let name = entry_name(types, *signature.params.item(place));
        write!(text, "{name}")?;
    }
    write!(text, ")")?;
    Ok(())
}

/// Appends a name with objects, as `(at truck mill)`.
pub fn put_objects(
    text: &mut String,
    words: &Vocabulary,
    signatures: &List<Signature>,
    number: u32,
    objects: &List<u32>,
) -> Result<(), NoMemory> {
    write!(text, "({}", word_name(signatures, number))?;
    for place in 0..objects.len() {
        let name = entry_name(&words.objects, *objects.item(place));
        write!(text, " {name}")?;
    }
    write!(text, ")")?;
    Ok(())
}

// Appends a name with terms, as `(at ?1 mill)`.
fn put_terms(
    text: &mut String,
    words: &Vocabulary,
    signatures: &List<Signature>,
    number: u32,
    terms: &List<Term>,
) -> Result<(), NoMemory> {
    write!(text, "({}", word_name(signatures, number))?;
    for place in 0..terms.len() {
        match terms.item(place) {
            Term::Param(i) => write!(text, " ?{}", u64::from(*i) + 1)?,
            Term::Object(object) => write!(text, " {}", entry_name(&words.objects, *object))?,
        }
    }
    write!(text, ")")?;
    Ok(())
}

/// Appends a line for each atom, each beginning with this word.
pub fn put_atoms(
    text: &mut String,
    words: &Vocabulary,
    head: &str,
    atoms: &List<SchemaAtom>,
) -> Result<(), NoMemory> {
    for place in 0..atoms.len() {
        let atom = atoms.item(place);
        write!(text, "  {head} ")?;
        put_terms(text, words, &words.predicates, atom.predicate, &atom.args)?;
        write!(text, "\n")?;
    }
    Ok(())
}

/// Appends a cost.
pub fn put_cost(text: &mut String, words: &Vocabulary, cost: &CostExpr) -> Result<(), NoMemory> {
    match cost {
        CostExpr::Number(number) => {
            write!(text, "{number}")?;
            Ok(())
        }
        CostExpr::Call { function, args } => {
            put_terms(text, words, &words.functions, *function, args)
        }
    }
}
