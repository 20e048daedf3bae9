//! All differences of two models, group by group.

ghost use Rattle.std.specs.Prelude.{◌≡◌, ◌+◌, ◌*◌, IfOk, length};
ghost use Rattle.feature_diff.specs.Parts.{IsGathered};

use crate::actions::tell_actions;
use crate::facts::{FactKind, tell_facts};
use crate::gathered::Gathered;
use crate::worths::tell_values;
use model_kit::Model;
use mre_base::NoMemory;
use std::alloc::Global;

// All differences of two models, group by group.
pub(crate) fn gather(alloc: Global, planner: &Model, user: &Model) -> Result<Gathered, NoMemory>
    requires joint { user.now.words ≡ planner.now.words }
    ensures ok { IfOk result (IsGathered planner.now user.now
        (3 + 5 * length planner.now.words.actions)) }
{
    let mut gathered = Gathered::none(alloc);
    tell_facts(alloc, planner, user, FactKind::Init, &mut gathered)?;
    tell_facts(alloc, planner, user, FactKind::Goal, &mut gathered)?;
    tell_actions(alloc, planner, user, &mut gathered)?;
    tell_values(alloc, planner, user, &mut gathered)?;
    Ok(gathered)
}
