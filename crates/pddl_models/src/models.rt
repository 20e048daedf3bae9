//! Schemas with their costs, and the model of a problem.

ghost use Rattle.std.specs.Prelude.{◌≡◌, ◌<◌, ◌^◌, length, map, IfOk};
ghost use Rattle.pddl_names.specs.Naming.{IsNamed};
ghost use Rattle.pddl_models.specs.Saying.{AreNoTotals, AreOfProblem};
ghost use Rattle.pddl_names.specs.Texts.{declared_by};
ghost use Rattle.pddl_vocabulary.specs.Values.{SaysMore};
ghost use Rattle.pddl_models.specs.Says.{minimizes, has_metric, cost_said, schema_said, SaysModel};

use crate::body::Body;
use crate::domain::Domain;
use crate::facts::{facts_said, values_said};
use crate::word_tables::WordTables;
use model_kit::{CostExpr, Model, Schema, Vocabulary};
use mre_base::{Copied, List, NoMemory};
use pddl_names::{Role, Says, Word};
use std::alloc::Global;

// Whether a word of this role is that of the metric.
fn minimizes(role: Role) -> bool
    ensures { result ≡ minimizes role }
{
    matches!(role, Role::Metric)
}

/// Whether the problem has the metric.
pub fn has_metric(said: &List<Word>) -> bool
    ensures { result ≡ has_metric said.now }
{
    for place in 0..said.len() {
        if minimizes(said.item(place).role) {
            return true;
        }
    }
    false
}

// What an action costs.
fn cost_said(alloc: Global, metric: bool, increase: &Option<CostExpr>) -> Result<CostExpr, NoMemory>
    ensures ok { IfOk result (λ made. made ≡ cost_said metric increase.now) }
{
    if !metric {
        return Ok(CostExpr::Number(1));
    }
    match increase {
        None => Ok(CostExpr::Number(0)),
        Some(cost) => cost.copied(alloc),
    }
}

// The schema of an action.
fn schema_said(alloc: Global, metric: bool, body: &Body) -> Result<Schema, NoMemory>
    ensures ok { IfOk result (λ made. made ≡ schema_said metric body.now) }
{
    Ok(Schema {
        pre: body.pre.copied(alloc)?,
        add: body.add.copied(alloc)?,
        del: body.del.copied(alloc)?,
        cost: cost_said(alloc, metric, &body.increase)?,
    })
}

/// The schemas of the actions of a domain.
pub fn schemas_said(
    alloc: Global,
    metric: bool,
    bodies: &List<Body>,
) -> Result<List<Schema>, NoMemory>
    ensures ok { IfOk result (λ made. made ≡ map (schema_said metric) bodies.now) }
{
    let mut made = List::empty(alloc);
    for place in 0..bodies.len() {
        made.push(schema_said(alloc, metric, bodies.item(place))?)?;
    }
    Ok(made)
}

/// The model of a well-named problem of this domain, over the vocabulary of both.
pub fn model_of(
    alloc: Global,
    domain: &Domain,
    words: Vocabulary,
    said: &List<Word>,
) -> Result<Model, NoMemory>
    requires predicates { length words.predicates < 2 ^ 30 }
    requires functions { length words.functions < 2 ^ 30 }
    requires objects { length words.objects < 2 ^ 30 }
    requires few { length said.now < 2 ^ 30 }
    requires more { SaysMore domain.now.words said.now words }
    requires problem { AreOfProblem said.now }
    requires calls { AreNoTotals said.now }
    requires named { IsNamed (declared_by domain.now.words) said.now }
    ensures ok { IfOk result (λ made. SaysModel domain.now said.now made) }
{
    let tables = WordTables::of(alloc, &words)?;
    let init = facts_said(alloc, &tables, said, Says::Initial)?;
    let goal = facts_said(alloc, &tables, said, Says::Goal)?;
    let schemas = schemas_said(alloc, has_metric(said), &domain.bodies)?;
    let values = values_said(alloc, &tables, said)?;
    Ok(Model {
        words,
        init,
        goal,
        schemas,
        values,
        unknown: List::empty(alloc),
    })
}
