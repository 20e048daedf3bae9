//! Differences on function values.

ghost use Rattle.std.specs.Prelude.{◌≡◌, ◌+◌, ◌*◌, IsTrue, OnOk, length, map};
ghost use Rattle.model_kit.specs.Vocabulary.{is_object_of, fits_signature};
ghost use Rattle.model_kit.specs.Printed.{form as printed_form, name_of, object_name};
ghost use Rattle.feature_diff.specs.Telling.{value_alone, value_both};
ghost use Rattle.feature_diff.specs.Parts.{GainsGroup};

use crate::Difference;
use crate::gathered::Gathered;
use crate::told::{Told, tell};
use model_kit::{Model, Vocabulary, print_value};
use mre_base::{List, NoMemory, Text};
use std::alloc::Global;

/// The function values of a model.
#[derive(Clone, Copy)]
pub struct Worths;

// Adds the differences on function values: those that only one model has, and those that aren't the
// same in both.
pub(crate) fn tell_values(
    alloc: Global,
    planner: &Model,
    user: &Model,
    gathered: &mut Gathered,
) -> Result<(), NoMemory>
    requires joint { user.now.words ≡ planner.now.words }
    ensures ok { OnOk result (GainsGroup planner.now user.now
        (2 + 5 * length planner.now.words.actions) gathered.old gathered.new) }
{
    tell::<Worths, (u32, List<u32>, u32)>(
        alloc,
        &planner.words,
        &Worths,
        &planner.values,
        &user.values,
        gathered,
    )
}

impl Told<Worths> for (u32, List<u32>, u32) {
    ghost Fits = { λ words value.
        IsTrue (fits_signature (is_object_of words) words.functions value.0 value.1) };

    ghost form = { λ words value.
        printed_form (name_of words.functions value.0) (map (object_name words) value.1) };

    ghost alone = { λ kind. value_alone };

    ghost both = { λ kind. value_both };

    fn print(&self, alloc: Global, words: &Vocabulary) -> Result<Text, NoMemory> {
        print_value(alloc, words, self.0, &self.1)
    }

    fn tell_alone(
        &self,
        alloc: Global,
        _kind: &Worths,
        planner_has: bool,
    ) -> Result<Difference, NoMemory> {
        let objects = self.1.copy(alloc)?;
        Ok(Difference::Value {
            function: self.0,
            objects,
            planner: if planner_has { Some(self.2) } else { None },
            user: if planner_has { None } else { Some(self.2) },
        })
    }

    fn tell_both(
        &self,
        user: &(u32, List<u32>, u32),
        alloc: Global,
        _kind: &Worths,
    ) -> Result<Option<Difference>, NoMemory> {
        if self.2 == user.2 {
            return Ok(None);
        }
        let objects = self.1.copy(alloc)?;
        Ok(Some(Difference::Value {
            function: self.0,
            objects,
            planner: Some(self.2),
            user: Some(user.2),
        }))
    }
}
