//! The user's model with some places as the planner has them.

ghost use Rattle.std.specs.Prelude.{◌≡◌, ◌++◌, ◌<◌, ◌≤◌, Some, IfOk, OnOk, length, slice_get};
ghost use Rattle.feature_diff.specs.Telling.{place_in, part_of};
ghost use Rattle.feature_diff.specs.Blending.{is_told_at, those, blended, blended_schema};
ghost use Rattle.feature_diff.specs.Blending.{AreBlended, IsBlend};

use crate::Difference;
use crate::facts::FactKind;
use crate::schema_parts::{ActionPart, SchemaPart, atoms_in};
use crate::spots::{ActionKind, Spot, is_told};
use crate::worths::Worths;
use model_kit::{GroundAtom, Model, Schema, SchemaAtom};
use mre_base::{Copied, List, NoMemory, Places};
use std::alloc::Global;

// Copies the entries that are told, or those that aren't, to the end of a list.
fn keep<K, T: Spot<K>>(
    alloc: Global,
    items: &List<T>,
    kind: &K,
    differences: &List<Difference>,
    told: &Places,
    wanted: bool,
    made: &mut List<T>,
) -> Result<(), NoMemory>
    requires few { length differences.now ≤ 256 }
    ensures ok { OnOk result (made.new ≡ made.old
        ++ those (λ x. is_told_at differences.now told.now (T.place kind.now x)) wanted items.now) }
{
    for place in 0..items.len() {
        let item = items.item(place);
        if is_told::<K, T>(item, kind, differences, told) == wanted {
            made.push(item.copied(alloc)?)?;
        }
    }
    Ok(())
}

// The planner's entries that are told, and the user's that aren't.
fn blend<K, T: Spot<K>>(
    alloc: Global,
    planner: &List<T>,
    user: &List<T>,
    kind: &K,
    differences: &List<Difference>,
    told: &Places,
) -> Result<List<T>, NoMemory>
    requires few { length differences.now ≤ 256 }
    ensures ok { IfOk result (λ made. made
        ≡ blended (λ x. is_told_at differences.now told.now (T.place kind.now x)) planner.now
        user.now) }
{
    let mut made = List::empty(alloc);
    keep::<K, T>(alloc, planner, kind, differences, told, true, &mut made)?;
    keep::<K, T>(alloc, user, kind, differences, told, false, &mut made)?;
    Ok(made)
}

// One list of an action's schema.
fn blend_part(
    alloc: Global,
    planner: &Schema,
    user: &Schema,
    kind: ActionPart,
    differences: &List<Difference>,
    told: &Places,
) -> Result<List<SchemaAtom>, NoMemory>
    requires few { length differences.now ≤ 256 }
    ensures ok { IfOk result (λ made. made
        ≡ blended (λ f. is_told_at differences.now told.now (place_in kind.part kind.action f))
        (part_of kind.part planner.now) (part_of kind.part user.now)) }
{
    blend::<ActionPart, SchemaAtom>(
        alloc,
        atoms_in(kind.part, planner),
        atoms_in(kind.part, user),
        &kind,
        differences,
        told,
    )
}

// The schema of an action with each told place as the planner has it.
fn blend_schema(
    alloc: Global,
    planner: &Schema,
    user: &Schema,
    action: u32,
    differences: &List<Difference>,
    told: &Places,
) -> Result<Schema, NoMemory>
    requires few { length differences.now ≤ 256 }
    ensures ok { IfOk result (λ made. made
        ≡ blended_schema (is_told_at differences.now told.now) action planner.now user.now) }
{
    let pre = ActionPart {
        action,
        part: SchemaPart::Pre,
    };
    let add = ActionPart {
        action,
        part: SchemaPart::Add,
    };
    let del = ActionPart {
        action,
        part: SchemaPart::Del,
    };
    let is_planners = is_told::<ActionKind, u32>(&action, &ActionKind::Cost, differences, told);
    let cost = if is_planners {
        &planner.cost
    } else {
        &user.cost
    };
    Ok(Schema {
        pre: blend_part(alloc, planner, user, pre, differences, told)?,
        add: blend_part(alloc, planner, user, add, differences, told)?,
        del: blend_part(alloc, planner, user, del, differences, told)?,
        cost: cost.copied(alloc)?,
    })
}

// All schemas. Action numbers past 32 bits count as running out of memory.
fn blend_schemas(
    alloc: Global,
    planner: &List<Schema>,
    user: &List<Schema>,
    differences: &List<Difference>,
    told: &Places,
) -> Result<List<Schema>, NoMemory>
    requires few { length differences.now ≤ 256 }
    requires one_each { length user.now ≡ length planner.now }
    ensures ok { IfOk result (AreBlended (is_told_at differences.now told.now) planner.now user.now
        (length planner.now)) }
{
    if planner.len() > u32::MAX as usize {
        return Err(NoMemory);
    }
    let mut made = List::empty(alloc);
    for action in 0..planner.len() as u32 {
        let place = action as usize;
        made.push(blend_schema(
            alloc,
            planner.item(place),
            user.item(place),
            action,
            differences,
            told,
        )?)?;
    }
    Ok(made)
}

// The user's model with each told place as the planner has it.
pub(crate) fn blend_models(
    alloc: Global,
    planner: &Model,
    user: &Model,
    differences: &List<Difference>,
    told: &Places,
) -> Result<Model, NoMemory>
    requires joint { user.now.words ≡ planner.now.words }
    requires few { length differences.now ≤ 256 }
    ensures ok { IfOk result (IsBlend (is_told_at differences.now told.now) planner.now user.now) }
{
    Ok(Model {
        words: planner.words.copied(alloc)?,
        init: blend::<FactKind, GroundAtom>(
            alloc,
            &planner.init,
            &user.init,
            &FactKind::Init,
            differences,
            told,
        )?,
        goal: blend::<FactKind, GroundAtom>(
            alloc,
            &planner.goal,
            &user.goal,
            &FactKind::Goal,
            differences,
            told,
        )?,
        schemas: blend_schemas(alloc, &planner.schemas, &user.schemas, differences, told)?,
        values: blend::<Worths, (u32, List<u32>, u32)>(
            alloc,
            &planner.values,
            &user.values,
            &Worths,
            differences,
            told,
        )?,
        unknown: blend::<ActionKind, u32>(
            alloc,
            &planner.unknown,
            &user.unknown,
            &ActionKind::Knows,
            differences,
            told,
        )?,
    })
}
