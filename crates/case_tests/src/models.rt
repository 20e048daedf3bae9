//! Tests of models against the tasks that a case table makes afresh.
ghost use Rattle.std.specs.Prelude.{◌≡◌, ◌<◌, ◌≤◌, IfOk};
ghost use Rattle.cow_models.specs.Models.{IsModelOf};

use crate::cases::{always, number, told};
use crate::making::{GivenAction, Size, table_of};
use case_kit::{CaseCost, CaseTable, CaseValue, Way, When};
use cow_models::CaseModel;
use cube_kit::Cube;
use mre_base::{Bits, NoMemory, Side, Steps};
use std::alloc::Global;
use std::marker::Brand;
use std::process::Abort;
use std::sync::ledger::{Blank, Ledger};
use std::test::Fail;
use task_kit::{Task, TaskView};

// Atoms: 0 (g), 1 (p), 2 (r). Actions: jump, and then walk this many times. The differences are 1,
// initially (r); 2, jump needs (r); 3, jump costs 3, not 1.
fn v_table(alloc: Global, walks: usize) -> Result<CaseTable, Fail>
    requires { walks < 33 }
    ensures { IfOk result (λ table. table.d ≡ 3) }
{
    let jump = GivenAction {
        pre: &[told(2, 2)],
        add: &[always(0)],
        del: &[],
        cost: CaseCost::Two {
            place: 3,
            told: CaseValue::One(Some(3)),
            left: CaseValue::One(Some(1)),
        },
        known: When::Always,
    };
    let walk = GivenAction {
        pre: &[always(1)],
        add: &[always(0)],
        del: &[],
        cost: number(2),
        known: When::Always,
    };
    let mut rows = [walk; 33];
    rows[0] = jump;
    let size = Size {
        d: 3,
        split: 3,
        atoms: 3,
    };
    let start = [always(1), told(2, 1)];
    Ok(table_of(alloc, size, &start, &[always(0)], &rows[..walks + 1])?)
}

// What each call of a model and of a task answers is equal, at one state.
fn assert_same_at(
    rt: &impl Abort,
    alloc: Global,
    model: &CaseModel,
    task: &Task,
    state: &Bits,
) -> Result<(), NoMemory> {
    assert_eq!(rt; model.atoms(), task.atoms());
    assert_eq!(rt; model.actions(), task.actions());
    assert_eq!(rt; state.width() as u64, model.atoms() as u64 + 1);
    let mut one = state.copy(alloc)?;
    let mut two = state.copy(alloc)?;
    for action in 0..model.actions() {
        assert_eq!(rt;
            model.cost(action),
            task.cost(action),
            "the cost of {action}"
        );
        assert_eq!(rt; model.applies(action, state), task.applies(action, state));
        assert_eq!(rt; model.missing(action, state), task.missing(action, state));
        assert_eq!(rt;
            model.adds_outside(action, state),
            task.adds_outside(action, state)
        );
        assert_eq!(rt; model.outside(action, state), task.outside(action, state));
        assert_eq!(rt; one.width(), state.width());
        model.next_into(action, state, &mut one);
        assert_eq!(rt; two.width(), state.width());
        task.next_into(action, state, &mut two);
        assert!(rt; one == two, "the successor by {action}");
    }
    Ok(())
}

fn assert_same(rt: &impl Abort, alloc: Global, model: &CaseModel, task: &Task) -> Result<(), Fail> {
    assert!(rt; *model.start() == *task.start(), "the start");
    assert!(rt; *model.goal() == *task.goal(), "the goal");
    assert_same_at(rt, alloc, model, task, task.start())?;
    assert_same_at(rt, alloc, model, task, task.goal())?;
    Ok(())
}

// The model's task is the one that the table makes afresh for its cube.
fn assert_afresh(
    rt: &impl Abort,
    alloc: Global,
    table: &CaseTable,
    model: &CaseModel,
    way: Way,
) -> Result<(), Fail> {
    assert_same(rt, alloc, model, &table.task_by(alloc, &model.cube(), way)?)
}

fn decided<L: Ledger>(
    rt: &impl Abort,
    alloc: Global,
    table: &CaseTable,
    model: &CaseModel,
    place: u32,
    side: Side,
    steps: &mut Steps<L>,
) -> Result<CaseModel, Fail>
    requires { IsModelOf table.now model.now }
    ensures { IfOk result (IsModelOf table.now) }
{
    assert!(rt; 1 <= place && place <= 256);
    let cube = model.cube();
    assert!(rt; cube.undecided.has(place), "{place} is undecided");
    Ok(model.decided(alloc, table, place, side, steps)?)
}

// Row by row: a model, the two models of a difference told and left, and then a chain.
fn assert_shared<L: Ledger>(
    rt: &impl Abort,
    alloc: Global,
    table: &CaseTable,
    way: Way,
    steps: &mut Steps<L>,
) -> Result<(), Fail>
    requires { table.now.d ≤ 256 }
{
    let model = CaseModel::of(alloc, table, &Cube::root(table.d), way, steps)?;
    let one = decided(rt, alloc, table, &model, 1, Side::Told, steps)?;
    let two = decided(rt, alloc, table, &model, 1, Side::Left, steps)?;
    assert_afresh(rt, alloc, table, &model, way)?;
    assert_afresh(rt, alloc, table, &one, way)?;
    assert_afresh(rt, alloc, table, &two, way)?;
    let more = decided(rt, alloc, table, &one, 3, Side::Left, steps)?;
    let last = decided(rt, alloc, table, &more, 2, Side::Told, steps)?;
    assert_afresh(rt, alloc, table, &more, way)?;
    assert_afresh(rt, alloc, table, &last, way)?;
    assert_afresh(rt, alloc, table, &one, way)?;
    drop(one);
    assert_afresh(rt, alloc, table, &model, way)?;
    assert_afresh(rt, alloc, table, &two, way)
}

fn assert_tables<L: Ledger>(rt: &impl Abort, alloc: Global, blank: Blank) -> Result<(), Fail>
    requires name { blank.name ≡ L.name }
    requires parts { blank.parts ≡ L.parts }
    requires some { 0 < blank.parts }
{
    let mut steps = Steps::<L>::start(blank);
    for walks in [1, 15, 16, 31] {
        let table = v_table(alloc, walks)?;
        assert_shared(rt, alloc, &table, Way::Permissive, &mut steps)?;
        assert_shared(rt, alloc, &table, Way::Restrictive, &mut steps)?;
    }
    Ok(())
}

#[test]
fn models_that_share_rows_are_those_made_afresh(rt: HostRuntime) -> Result<(), Fail> {
    assert_tables::<Brand>(&rt, rt.alloc(), Blank::new(1))
}
