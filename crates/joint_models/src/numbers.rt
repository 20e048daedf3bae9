//! The new numbers of the entries of a vocabulary.

ghost use Rattle.std.specs.Prelude.{◌≡◌, map, IfOk};
ghost use Rattle.model_kit.specs.Pairs.{names, number_of};
ghost use Rattle.joint_models.specs.Renaming.{number_at, numbers_between, AreNumbers};

use crate::listed::Listed;
use crate::lists::Lists;
use model_kit::Signature;
use mre_base::{List, NoMemory};
use std::alloc::Global;

/// For each word of one vocabulary, its number in another.
pub(crate) struct Numbers {
    pub(crate) objects: List<u32>,
    pub(crate) predicates: List<u32>,
    pub(crate) functions: List<u32>,
}

impl Drop for Numbers {
    fn drop(self) {
        let Numbers {
            objects: _,
            predicates: _,
            functions: _,
        } = self;
    }
}

impl Numbers {
    pub(crate) fn between(alloc: Global, from: &Lists, to: &Lists) -> Result<Numbers, NoMemory>
        ensures ok { IfOk result (AreNumbers from.now to.now) }
    {
        Ok(Numbers {
            objects: numbers_between(alloc, &from.objects.entries, &to.objects)?,
            predicates: numbers_between(alloc, &from.predicates.entries, &to.predicates)?,
            functions: numbers_between(alloc, &from.functions.entries, &to.functions)?,
        })
    }
}

/// The numbers that the names of a list have among other entries. Numbers past 32 bits count as
/// running out of memory.
pub(crate) fn numbers_between(
    alloc: Global,
    from: &List<Signature>,
    to: &Listed,
) -> Result<List<u32>, NoMemory>
    ensures ok { IfOk result (λ made. made ≡ numbers_between from.now to.now.entries) }
{
    let mut made = List::empty(alloc);
    for place in 0..from.len() {
        let number = to.number(&from.item(place).name);
        if number > u32::MAX as usize {
            return Err(NoMemory);
        }
        made.push(number as u32)?;
    }
    Ok(made)
}

/// The number at a place, and 0 past the end.
pub(crate) fn number_at(numbers: &List<u32>, place: u32) -> u32
    ensures { result ≡ number_at numbers.now place }
{
    if (place as usize) < numbers.len() {
        *numbers.item(place as usize)
    } else {
        0
    }
}

/// The numbers at many places.
pub(crate) fn numbers_at(
    alloc: Global,
    numbers: &List<u32>,
    places: &List<u32>,
) -> Result<List<u32>, NoMemory>
    ensures ok { IfOk result (λ made. made ≡ map (number_at numbers.now) places.now) }
{
    let mut made = List::empty(alloc);
    for place in 0..places.len() {
        made.push(number_at(numbers, *places.item(place)))?;
    }
    Ok(made)
}
