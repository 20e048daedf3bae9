//! What a text, or what comes before it, declares.

ghost use Rattle.std.specs.Prelude.{◌≡◌, map, IfOk};
ghost use Rattle.pddl_names.specs.Known.{declared_in, declared_before};
ghost use Rattle.pddl_names.specs.Texts.{type_name, entry_declared, signature_declared};

use model_kit::Signature;
use mre_base::{List, NoMemory, Text};
use std::alloc::Global;

/// What is declared, in written order: the types with their parents, the objects with their types,
/// and the predicates and the functions with the types of their parameters.
#[derive(Drop)]
pub struct Known {
    pub types: List<(Text, Text)>,
    pub objects: List<(Text, Text)>,
    pub predicates: List<(Text, List<Text>)>,
    pub functions: List<(Text, List<Text>)>,
}

/// What is declared before a text, by number.
#[derive(Clone, Copy)]
pub struct Base<'a> {
    pub types: &'a List<(Text, u32)>,
    pub objects: &'a List<(Text, u32)>,
    pub predicates: &'a List<Signature>,
    pub functions: &'a List<Signature>,
}

impl Known {
    /// What is declared before a text.
    pub fn of_base(alloc: Global, base: Base<'_>) -> Result<Known, NoMemory>
        ensures ok { IfOk result (λ made. declared_in made ≡ declared_before base.entry) }
    {
        Ok(Known {
            types: named_entries(alloc, base.types, base.types)?,
            objects: named_entries(alloc, base.types, base.objects)?,
            predicates: named_signatures(alloc, base.types, base.predicates)?,
            functions: named_signatures(alloc, base.types, base.functions)?,
        })
    }
}

// The name of a type, by its number.
fn type_name(alloc: Global, types: &List<(Text, u32)>, number: u32) -> Result<Text, NoMemory>
    ensures ok { IfOk result (λ made. made ≡ type_name types.now number) }
{
    if (number as usize) < types.len() {
        types.item(number as usize).0.copy(alloc)
    } else {
        Text::of(alloc, "object")
    }
}

// Types with their parents, or objects with their types, by name.
fn named_entries(
    alloc: Global,
    types: &List<(Text, u32)>,
    entries: &List<(Text, u32)>,
) -> Result<List<(Text, Text)>, NoMemory>
    ensures ok { IfOk result (λ made. made ≡ map (entry_declared types.now) entries.now) }
{
    let mut made = List::empty(alloc);
    for place in 0..entries.len() {
        let entry = entries.item(place);
        made.push((entry.0.copy(alloc)?, type_name(alloc, types, entry.1)?))?;
    }
    Ok(made)
}

// The names of types, by their numbers.
fn type_names(
    alloc: Global,
    types: &List<(Text, u32)>,
    numbers: &List<u32>,
) -> Result<List<Text>, NoMemory>
    ensures ok { IfOk result (λ made. made ≡ map (type_name types.now) numbers.now) }
{
    let mut made = List::empty(alloc);
    for place in 0..numbers.len() {
        made.push(type_name(alloc, types, *numbers.item(place))?)?;
    }
    Ok(made)
}

// Predicates or functions with the types of their parameters, by name.
fn named_signatures(
    alloc: Global,
    types: &List<(Text, u32)>,
    signatures: &List<Signature>,
) -> Result<List<(Text, List<Text>)>, NoMemory>
    ensures ok { IfOk result (λ made. made ≡ map (signature_declared types.now) signatures.now) }
{
    let mut made = List::empty(alloc);
    for place in 0..signatures.len() {
        let signature = signatures.item(place);
        let params = type_names(alloc, types, &signature.params)?;
        made.push((signature.name.copy(alloc)?, params))?;
    }
    Ok(made)
}
