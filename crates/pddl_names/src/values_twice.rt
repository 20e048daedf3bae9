//! Values of functions that are given again at the same objects.

ghost use Rattle.std.specs.Prelude.{◌≡◌, ◌≤◌, ◌+◌, ◌^◌, ◌<◌, List, ℕ, Some, map, take, drop};
ghost use Rattle.std.specs.Prelude.{length, IfOk, IfSome, slice_get, unwrap_or};
ghost use Rattle.std.specs.List.{between};
ghost use Rattle.std.specs.Map.{lookup};
ghost use Rattle.std.specs.Option.{option_and_then};
ghost use Rattle.pddl_form.specs.Numbers.{number};
ghost use Rattle.pddl_names.specs.declared.role.Role.TheVariants as roles;
ghost use Rattle.pddl_names.specs.declared.role.Word as said;
ghost use Rattle.pddl_names.specs.Calls.{names_in, AreCallsFrom, is_value_role};
ghost use Rattle.pddl_names.specs.Groups.{AreTermCounts};
ghost use Rattle.pddl_names.specs.Listings.{Declared, terms_behind, number_behind, values_in};
ghost use Rattle.pddl_names.specs.Naming.{is_other_number, same_call};
ghost use Rattle.pddl_names.specs.Tables.{AreTables, AreSized, AreFirstValues};

use crate::calls::Call;
use crate::name_tables::Tables;
use crate::role::{Role, Word};
use mre_base::{List, NoMemory};
use pddl_form::number_of;
use std::alloc::Global;
use std::collections::BTreeMap;

// Whether a word of this role is the function of a value.
fn is_value(role: Role) -> bool
    ensures { result ≡ is_value_role role }
{
    matches!(role, Role::Value)
}

// The function at a place, with the given number of objects after it.
fn call_of(alloc: Global, words: &List<Word>, place: usize, count: usize) -> Result<Call, NoMemory>
    requires few { length words.now < 2 ^ 30 }
    requires inside { place + 1 + count ≤ length words.now }
    ensures ok { IfOk result (λ call. names_in call ≡ map (λ (w : said.Word). w.text)
        (between place (place + 1 + count) words.now)) }
{
    let mut names = Vec::new(alloc);
    for at in place..place + 1 + count {
        names.push(words.item(at).text.copy(alloc)?)?;
    }
    Ok(Call { words: names })
}

// Where each function at objects has a value first.
fn call_table(
    alloc: Global,
    words: &List<Word>,
    terms: &Vec<u32>,
) -> Result<BTreeMap<Call, u32>, NoMemory>
    requires few { length words.now < 2 ^ 30 }
    requires terms { AreTermCounts words.now terms.now.items }
    ensures ok { IfOk result (AreCallsFrom 0 words.now) }
{
    let mut table = BTreeMap::new(alloc);
    for place in (0..words.len()).rev() {
        if !is_value(words.item(place).role) {
            continue;
        }
        let call = call_of(alloc, words, place, terms[place] as usize)?;
        table.insert(call, place as u32)?;
    }
    Ok(table)
}

/// For each value, the place of the first with its function and objects.
pub(crate) fn first_values(
    alloc: Global,
    words: &List<Word>,
    terms: &Vec<u32>,
) -> Result<Vec<u32>, NoMemory>
    requires few { length words.now < 2 ^ 30 }
    requires terms { AreTermCounts words.now terms.now.items }
    ensures ok { IfOk result (λ firsts. AreFirstValues words.now firsts.items) }
    ensures size { IfOk result (λ firsts. length firsts.items ≡ length words.now) }
{
    let table = call_table(alloc, words, terms)?;
    let mut firsts = vec![in alloc; 0; words.len()]?;
    for place in 0..words.len() {
        if !is_value(words.item(place).role) {
            continue;
        }
        let call = call_of(alloc, words, place, terms[place] as usize)?;
        firsts[place] = table.get(&call).copied().unwrap_or(0);
    }
    Ok(firsts)
}

// The number at a place before an end, and 0 where there is no number.
fn number_at(words: &List<Word>, place: usize, end: usize) -> u32
    requires end { end ≤ length words.now }
    ensures { result ≡ unwrap_or (option_and_then (λ (w : said.Word). number w.text)
        (slice_get (take end words.now) place)) 0 }
{
    if place < end {
        number_of(words.item(place).text.bytes()).unwrap_or(0)
    } else {
        0
    }
}

impl Tables {
    /// Whether a value's function has another number at its objects before.
    pub(crate) fn is_other_value(&self, words: &List<Word>, place: usize) -> bool
        requires place { place < length words.now }
        requires sizes { AreSized words.now self.now }
        ensures { (known : Declared) → AreTables known words.now self.now →
            IfSome (slice_get words.now place) (λ w. w.role ≡ roles.Value →
            result ≡ is_other_number
            (lookup (same_call (w.text, terms_behind (drop (place + 1) words.now))) (values_in (take place words.now)))
            (number_behind (drop (place + 1) words.now))) }
    {
        let first = self.values[place] as usize;
        if first >= place {
            return false;
        }
        let before = first + 1 + self.heads.terms[first] as usize;
        let here = place + 1 + self.heads.terms[place] as usize;
        number_at(words, before, place) != number_at(words, here, words.len())
    }
}
