//! Builds the tree of types, and climbs it.

ghost use Rattle.std.specs.Prelude.{◌≡◌, ◌++◌, ◌+◌, ◌<◌, ◌^◌, length, map, codes, IfOk, List, Some};
ghost use Rattle.std.specs.Prelude.{slice_index};
ghost use Rattle.std.specs.Str.{bytes_eq};
ghost use Rattle.pddl_names.specs.Firsts.{typed_name};
ghost use Rattle.pddl_names.specs.Forests.{AreUps};
ghost use Rattle.pddl_names.specs.Listings.{Typed, is_type, is_below, comes_back};
ghost use Rattle.pddl_names.specs.Numbers.{number_of};
ghost use Rattle.pddl_names.specs.TypeTrees.{parent_entry, with_parents, parent_number, AreTypes};
ghost use Rattle.pddl_names.specs.TypeTrees.{IsSoundTree};

use crate::firsts::TypedList;
use crate::forests::{does_reach, forest_of, up};
use crate::type_tree::TypeTree;
use mre_base::{Copied, List, NoMemory, Text};
use std::alloc::Global;

impl TypeTree {
    pub fn of(alloc: Global, types: &List<(Text, Text)>) -> Result<TypeTree, NoMemory>
        ensures ok { IfOk result (AreTypes types.now) }
        ensures sound { IfOk result IsSoundTree }
    {
        let names = TypedList::of(alloc, with_parents(alloc, types)?)?;
        let ups = parent_numbers(alloc, &names)?;
        let nodes = forest_of(alloc, &ups)?;
        Ok(TypeTree { names, ups, nodes })
    }

    /// Whether a type is declared.
    pub fn is_type(&self, name: &Text) -> bool
        ensures { (types : List Typed) → AreTypes types self.now → result ≡ is_type types name.now }
    {
        self.names.number(name).is_some()
    }

    /// Whether a type is another, or is declared below it.
    pub fn is_below(&self, name: &Text, above: &Text) -> bool
        requires sound { IsSoundTree self.now }
        ensures { (types : List Typed) → AreTypes types self.now →
            result ≡ is_below types name.now above.now }
    {
        if is_same(name, above) {
            return true;
        }
        match self.names.number(name) {
            Some(from) => match self.names.number(above) {
                Some(to) => does_reach(&self.ups, &self.nodes, from, to),
                None => false,
            },
            None => false,
        }
    }

    /// Whether the chain of parents of a type comes back to it.
    pub fn comes_back(&self, name: &Text) -> bool
        requires sound { IsSoundTree self.now }
        ensures { (types : List Typed) → AreTypes types self.now →
            result ≡ comes_back types name.now }
    {
        match self.names.number(name) {
            Some(number) => self.does_number_come_back(name, number),
            None => false,
        }
    }

    // The same of a type with this number.
    fn does_number_come_back(&self, name: &Text, number: u32) -> bool
        requires number { number_of typed_name self.now.names.entries name.now ≡ Some number }
        requires sound { IsSoundTree self.now }
        ensures { (types : List Typed) → AreTypes types self.now →
            result ≡ comes_back types name.now }
    {
        if is_object(name) {
            return !is_object(&self.names.entries.item(number as usize).1);
        }
        does_reach(&self.ups, &self.nodes, up(&self.ups, number), number)
    }
}

// Whether two texts are one.
pub(crate) fn is_same(one: &Text, other: &Text) -> bool
    ensures { result ≡ bytes_eq one.now other.now }
{
    one.as_str() == other.as_str()
}

// Whether a text is the name of the type that each other is below.
fn is_object(name: &Text) -> bool
    ensures { result ≡ bytes_eq name.now (codes "object") }
{
    name.as_str() == "object"
}

// The types, then their parents, then `object`.
fn with_parents(alloc: Global, types: &List<(Text, Text)>) -> Result<List<(Text, Text)>, NoMemory>
    ensures ok { IfOk result (λ made. made ≡ with_parents types.now) }
{
    let mut made = parents_of(alloc, types.copied(alloc)?, types)?;
    made.push((Text::of(alloc, "object")?, Text::of(alloc, "object")?))?;
    Ok(made)
}

// With the parents of the types after it.
fn parents_of(
    alloc: Global,
    before: List<(Text, Text)>,
    types: &List<(Text, Text)>,
) -> Result<List<(Text, Text)>, NoMemory>
    ensures ok { IfOk result (λ made. made ≡ before ++ map parent_entry types.now) }
{
    let mut made = before;
    for place in 0..types.len() {
        let parent = types.item(place).1.copy(alloc)?;
        made.push((parent, Text::of(alloc, "object")?))?;
    }
    Ok(made)
}

// The number of the parent of each entry.
fn parent_numbers(alloc: Global, names: &TypedList) -> Result<Vec<u32>, NoMemory>
    ensures ok { IfOk result (λ made.
        made.items ≡ map (parent_number names.now.entries) names.now.entries) }
    ensures sized { IfOk result (λ made. length made.items ≡ length names.now.entries) }
    ensures ups { IfOk result (λ made. AreUps made.items) }
{
    let mut made = Vec::new(alloc);
    for place in 0..names.entries.len() {
        let parent = &names.entries.item(place).1;
        made.push(names.number(parent).unwrap_or(0))?;
    }
    Ok(made)
}
