//! The bodies of actions, and the domain.

ghost use Rattle.std.specs.Prelude.{◌≡◌, ◌++◌, ◌≤◌, ◌<◌, ◌^◌, ℕ, List, length, drop, map, IfOk};
ghost use Rattle.model_kit.specs.declared.vocabulary.Vocabulary as vocabularies;
ghost use Rattle.pddl_names.specs.Listings.{nothing};
ghost use Rattle.pddl_names.specs.Naming.{IsNamed};
ghost use Rattle.pddl_names.specs.Numbers.{entry_name};
ghost use Rattle.pddl_models.specs.Saying.{AreNoTotals};
ghost use Rattle.pddl_models.specs.WordTables.{ArePlacesOf, AreWordTables};
ghost use Rattle.pddl_vocabulary.specs.Values.{actions_in, SaysWords};
ghost use Rattle.pddl_models.specs.Says.{param_names, body_said, SaysDomain};

use crate::atoms_said::{atoms_said, increase_said};
use crate::body::Body;
use crate::domain::Domain;
use crate::word_tables::WordTables;
use model_kit::Vocabulary;
use mre_base::{List, NoMemory, Text};
use pddl_names::{NameTable, Says, Word, is_action, is_param};
use std::alloc::Global;

// The parameters of an action, by the words from a place after its name on.
fn params_said(
    alloc: Global,
    said: &List<Word>,
    start: usize,
) -> Result<List<(Text, u32)>, NoMemory>
    ensures names { IfOk result (λ made. map entry_name made ≡ param_names (drop start said.now)) }
    ensures few { IfOk result (λ made. length made ≤ length said.now) }
{
    let mut made = List::empty(alloc);
    for place in start..said.len() {
        let word = said.item(place);
        if is_action(word.role) {
            return Ok(made);
        }
        if !is_param(word.role) {
            continue;
        }
        made.push((word.text.copy(alloc)?, 0))?;
    }
    Ok(made)
}

// The places of the parameters of an action, by the words from a place after its name on.
fn param_table(alloc: Global, said: &List<Word>, start: usize) -> Result<NameTable, NoMemory>
    requires few { length said.now < 2 ^ 30 }
    ensures ok { IfOk result (ArePlacesOf (param_names (drop start said.now))) }
{
    let params = params_said(alloc, said, start)?;
    NameTable::of(alloc, &params)
}

// The body of an action, by the words from a place after its name on.
fn body_said(
    alloc: Global,
    tables: &WordTables,
    said: &List<Word>,
    start: usize,
) -> Result<Body, NoMemory>
    requires few { length said.now < 2 ^ 30 }
    ensures ok { IfOk result (λ made. (words : vocabularies.Vocabulary) (name : List ℕ) →
        AreWordTables words tables.now → made ≡ body_said words (name, drop start said.now)) }
{
    let params = param_table(alloc, said, start)?;
    Ok(Body {
        pre: atoms_said(alloc, tables, &params, said, start, Says::Needed)?,
        add: atoms_said(alloc, tables, &params, said, start, Says::Added)?,
        del: atoms_said(alloc, tables, &params, said, start, Says::Deleted)?,
        increase: increase_said(alloc, tables, &params, said, start)?,
    })
}

/// The preconditions, adds and deletes of the actions of a domain, and how they raise the cost, in
/// the numbers of the vocabulary.
pub fn bodies_of(
    alloc: Global,
    words: &Vocabulary,
    said: &List<Word>,
) -> Result<List<Body>, NoMemory>
    requires predicates { length words.now.predicates < 2 ^ 30 }
    requires functions { length words.now.functions < 2 ^ 30 }
    requires objects { length words.now.objects < 2 ^ 30 }
    requires few { length said.now < 2 ^ 30 }
    ensures ok { IfOk result (λ made. made ≡ map (body_said words.now) (actions_in said.now)) }
{
    let tables = WordTables::of(alloc, words)?;
    let mut made = List::empty(alloc);
    for place in 0..said.len() {
        if !is_action(said.item(place).role) {
            continue;
        }
        made.push(body_said(alloc, &tables, said, place + 1)?)?;
    }
    Ok(made)
}

/// The domain of well-named words, over their vocabulary.
pub fn domain_of(alloc: Global, words: Vocabulary, said: &List<Word>) -> Result<Domain, NoMemory>
    requires few { length said.now < 2 ^ 30 }
    requires says { SaysWords said.now words }
    requires calls { AreNoTotals said.now }
    requires named { IsNamed nothing said.now }
    ensures ok { IfOk result (λ made. SaysDomain said.now made) }
{
    let bodies = bodies_of(alloc, &words, said)?;
    Ok(Domain { words, bodies })
}
