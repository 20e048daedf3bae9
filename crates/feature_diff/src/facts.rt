//! Differences on initial facts and goal facts.

ghost use Rattle.std.specs.Prelude.{◌≡◌, None, IsTrue, OnOk};
ghost use Rattle.model_kit.specs.Vocabulary.{is_ground_atom};
ghost use Rattle.model_kit.specs.Printed.{atom_form};
ghost use Rattle.feature_diff.specs.Telling.{facts_of, fact_told, fact_group};
ghost use Rattle.feature_diff.specs.Parts.{GainsGroup};

use crate::Difference;
use crate::gathered::Gathered;
use crate::told::{Told, tell};
use model_kit::{GroundAtom, Model, Vocabulary, print_atom};
use mre_base::{Copied, List, NoMemory, Text};
use std::alloc::Global;

/// The lists of ground atoms of a model.
#[derive(Clone, Copy)]
pub enum FactKind {
    Init,
    Goal,
}

/// One of the lists.
pub fn facts_in(kind: FactKind, model: &Model) -> &List<GroundAtom>
    ensures { result.now ≡ facts_of kind model.now }
{
    match kind {
        FactKind::Init => &model.init,
        FactKind::Goal => &model.goal,
    }
}

// Adds the differences on initial facts or on goal facts: those that only one model has.
pub(crate) fn tell_facts(
    alloc: Global,
    planner: &Model,
    user: &Model,
    kind: FactKind,
    gathered: &mut Gathered,
) -> Result<(), NoMemory>
    requires joint { user.now.words ≡ planner.now.words }
    ensures ok { OnOk result (GainsGroup planner.now user.now (fact_group kind) gathered.old
        gathered.new) }
{
    let words = &planner.words;
    tell::<FactKind, GroundAtom>(
        alloc,
        words,
        &kind,
        facts_in(kind, planner),
        facts_in(kind, user),
        gathered,
    )
}

impl Told<FactKind> for GroundAtom {
    ghost Fits = { λ words atom. IsTrue (is_ground_atom words atom) };

    ghost form = { atom_form };

    ghost alone = { fact_told };

    ghost both = { λ kind one other. None };

    fn print(&self, alloc: Global, words: &Vocabulary) -> Result<Text, NoMemory> {
        print_atom(alloc, words, self)
    }

    fn tell_alone(
        &self,
        alloc: Global,
        kind: &FactKind,
        planner_has: bool,
    ) -> Result<Difference, NoMemory> {
        let atom = self.copied(alloc)?;
        Ok(match kind {
            FactKind::Init => Difference::Init { atom, planner_has },
            FactKind::Goal => Difference::Goal { atom, planner_has },
        })
    }

    fn tell_both(
        &self,
        _user: &GroundAtom,
        _alloc: Global,
        _kind: &FactKind,
    ) -> Result<Option<Difference>, NoMemory> {
        Ok(None)
    }
}
