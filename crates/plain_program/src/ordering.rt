//! All sets of difference numbers, in the order by size and then by numbers.

ghost use Rattle.std.specs.Prelude.{◌≡◌, ◌++◌, ◌≤◌, ◌<◌, IfOk, OnOk, filter, nat_eq};
ghost use Rattle.mre_base.specs.Before.{count_of};
ghost use Rattle.plain_program.specs.Subsets.{ListsAll, all_with, sets_from, of_sizes};

use mre_base::{List, NoMemory, Places};
use std::alloc::Global;

// All sets of the numbers from 1 to a bound: smaller sets first, and sets of one size by their
// ascending lists.
pub(crate) fn sets_in_order(alloc: Global, bound: u32) -> Result<List<Places>, NoMemory>
    requires { bound ≤ 16 }
    ensures { IfOk result (λ sets. ListsAll bound sets) }
{
    let all = all_sets(alloc, bound)?;
    let mut sets = List::empty(alloc);
    for size in 0..bound + 1 {
        push_of_size(&mut sets, &all, size)?;
    }
    Ok(sets)
}

// All sets of the numbers from 1 to a bound. Of two sets of one size the one with the earlier list
// comes first: sets with a number stand before those without it, for the least number first.
fn all_sets(alloc: Global, bound: u32) -> Result<List<Places>, NoMemory>
    requires { bound ≤ 16 }
    ensures { IfOk result (λ sets. sets ≡ sets_from bound bound) }
{
    let mut sets = List::empty(alloc);
    sets.push(Places::none())?;
    for done in 0..bound {
        sets = doubled(alloc, &sets, bound - done)?;
    }
    Ok(sets)
}

// Each set with one more number, and then each set without it.
fn doubled(alloc: Global, sets: &List<Places>, place: u32) -> Result<List<Places>, NoMemory>
    requires low { 1 ≤ place }
    requires high { place ≤ 256 }
    ensures { IfOk result (λ made. made ≡ all_with place sets.now ++ sets.now) }
{
    let mut made = with_each(alloc, sets, place)?;
    for at in 0..sets.len() {
        made.push(sets.item(at).copy())?;
    }
    Ok(made)
}

// Each set with one more number.
fn with_each(alloc: Global, sets: &List<Places>, place: u32) -> Result<List<Places>, NoMemory>
    requires low { 1 ≤ place }
    requires high { place ≤ 256 }
    ensures { IfOk result (λ made. made ≡ all_with place sets.now) }
{
    let mut made = List::empty(alloc);
    for at in 0..sets.len() {
        made.push(sets.item(at).with(place))?;
    }
    Ok(made)
}

// Adds the sets of one size.
fn push_of_size(sets: &mut List<Places>, all: &List<Places>, size: u32) -> Result<(), NoMemory>
    ensures { OnOk result (sets.new
        ≡ sets.old ++ filter (λ set. nat_eq (count_of set) size) all.now) }
{
    for at in 0..all.len() {
        let set = all.item(at);
        if set.count() == size {
            sets.push(set.copy())?;
        }
    }
    Ok(())
}
