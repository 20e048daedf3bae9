//! What rules are made of: preconditions, adds, facts, costs and values of both models.

// The lists of a rule and of a world: what the planner's model has and, by the differences, what
// the user's has instead of it or beside it.
ghost use Rattle.std.specs.Prelude.{◌≡◌, ◌∷◌, [], ◌++◌, Some, None, map, filter, not, IfOk, IfSome};
ghost use Rattle.std.specs.Prelude.{IfNone};
ghost use Rattle.std.specs.List.{filter_map};
ghost use Rattle.pair_rules.specs.Made.{is_pre, user_add as added_alone, user_init as true_alone};
ghost use Rattle.pair_rules.specs.Made.{user_cost as costs_alone, user_key as valued, key_of};

use feature_diff::{ActionPart, Difference, SchemaPart, place_at};
use model_kit::{CostExpr, GroundAtom, SchemaAtom};
use mre_base::{Copied, List, NoMemory};
use std::alloc::Global;

// Whether some difference is on this precondition of an action.
fn differs(action: u32, atom: &SchemaAtom, differences: &List<Difference>) -> bool
    ensures { result ≡ is_pre action atom.now differences.now }
{
    let part = SchemaPart::Pre;
    place_at(atom, &ActionPart { action, part }, differences).is_some()
}

// The atom that the action adds only in the user's model, by the difference.
fn user_add(action: u32, difference: &Difference) -> Option<&SchemaAtom>
    ensures some { IfSome result (λ atom. added_alone action difference.now ≡ Some atom.now) }
    ensures none { IfNone result (added_alone action difference.now ≡ None) }
{
    match difference {
        Difference::Add {
            action: at,
            atom,
            planner_has: false,
        } if *at == action => Some(atom),
        _ => None,
    }
}

// What is true at first only in the user's model.
fn user_init(difference: &Difference) -> Option<&GroundAtom>
    ensures some { IfSome result (λ atom. true_alone difference.now ≡ Some atom.now) }
    ensures none { IfNone result (true_alone difference.now ≡ None) }
{
    match difference {
        Difference::Init {
            atom,
            planner_has: false,
        } => Some(atom),
        _ => None,
    }
}

// What the action costs in the user's model, where that is another cost.
fn user_cost(action: u32, difference: &Difference) -> Option<&CostExpr>
    ensures some { IfSome result (λ cost. costs_alone action difference.now ≡ Some cost.now) }
    ensures none { IfNone result (costs_alone action difference.now ≡ None) }
{
    match difference {
        Difference::Cost {
            action: at,
            user,
            ..
        } if *at == action => Some(user),
        _ => None,
    }
}

// The function at objects that has a value in the user's model, where the planner's has another or
// none.
fn user_key(difference: &Difference) -> Option<(u32, &List<u32>)>
    ensures some { IfSome result (λ key. valued difference.now ≡ Some (key.0, key.1.now)) }
    ensures none { IfNone result (valued difference.now ≡ None) }
{
    match difference {
        Difference::Value {
            function,
            objects,
            user: Some(_),
            ..
        } => Some((*function, objects)),
        _ => None,
    }
}

/// The preconditions of an action that both models have, of the planner's.
pub(crate) fn needs_of(
    alloc: Global,
    action: u32,
    pre: &List<SchemaAtom>,
    differences: &List<Difference>,
) -> Result<List<SchemaAtom>, NoMemory>
    ensures { IfOk result (λ made. made
        ≡ filter (λ atom. not (is_pre action atom differences.now)) pre.now) }
{
    let mut made = List::empty(alloc);
    for place in 0..pre.len() {
        let atom = pre.item(place);
        if !differs(action, atom, differences) {
            made.push(atom.copied(alloc)?)?;
        }
    }
    Ok(made)
}

/// The atoms that an action adds in the planner's model, and those that it adds only in the user's.
pub(crate) fn adds_of(
    alloc: Global,
    action: u32,
    add: &List<SchemaAtom>,
    differences: &List<Difference>,
) -> Result<List<SchemaAtom>, NoMemory>
    ensures { IfOk result (λ made. made ≡ add.now
        ++ filter_map (added_alone action) differences.now) }
{
    let mut made = add.copied(alloc)?;
    for place in 0..differences.len() {
        if let Some(atom) = user_add(action, differences.item(place)) {
            made.push(atom.copied(alloc)?)?;
        }
    }
    Ok(made)
}

/// The initial facts of the planner's model, and those that only the user's has.
pub(crate) fn facts_of(
    alloc: Global,
    init: &List<GroundAtom>,
    differences: &List<Difference>,
) -> Result<List<GroundAtom>, NoMemory>
    ensures { IfOk result (λ made. made ≡ init.now ++ filter_map true_alone differences.now) }
{
    let mut made = init.copied(alloc)?;
    for place in 0..differences.len() {
        if let Some(atom) = user_init(differences.item(place)) {
            made.push(atom.copied(alloc)?)?;
        }
    }
    Ok(made)
}

/// The cost of an action in the planner's model, and in the user's where it is another.
pub(crate) fn costs_of(
    alloc: Global,
    action: u32,
    cost: &CostExpr,
    differences: &List<Difference>,
) -> Result<List<CostExpr>, NoMemory>
    ensures { IfOk result (λ made. made ≡ (cost.now ∷ [])
        ++ filter_map (costs_alone action) differences.now) }
{
    let mut made = List::empty(alloc);
    made.push(cost.copied(alloc)?)?;
    for place in 0..differences.len() {
        if let Some(cost) = user_cost(action, differences.item(place)) {
            made.push(cost.copied(alloc)?)?;
        }
    }
    Ok(made)
}

/// The functions at objects that have a value in the planner's model, and those that have one in
/// the user's where the planner's has another or none.
pub(crate) fn keys_of(
    alloc: Global,
    values: &List<(u32, List<u32>, u32)>,
    differences: &List<Difference>,
) -> Result<List<(u32, List<u32>)>, NoMemory>
    ensures { IfOk result (λ made. made ≡ map key_of values.now
        ++ filter_map valued differences.now) }
{
    let mut made = planner_keys(alloc, values)?;
    for place in 0..differences.len() {
        if let Some((function, objects)) = user_key(differences.item(place)) {
            made.push((function, objects.copy(alloc)?))?;
        }
    }
    Ok(made)
}

fn planner_keys(
    alloc: Global,
    values: &List<(u32, List<u32>, u32)>,
) -> Result<List<(u32, List<u32>)>, NoMemory>
    ensures { IfOk result (λ made. made ≡ map key_of values.now) }
{
    let mut made = List::empty(alloc);
    for place in 0..values.len() {
        let (function, objects, _) = values.item(place);
        made.push((*function, objects.copy(alloc)?))?;
    }
    Ok(made)
}
