//! Atoms, values, schemas and costs in new numbers.

ghost use Rattle.std.specs.Prelude.{◌≡◌, map, IfOk};
ghost use Rattle.joint_models.specs.Renaming.{atom_by, term_by, schema_atom_by, cost_by, schema_by};
ghost use Rattle.joint_models.specs.Renaming.{value_by};

use crate::numbers::{Numbers, number_at, numbers_at};
use model_kit::{CostExpr, GroundAtom, Schema, SchemaAtom, Term};
use mre_base::{List, NoMemory};
use std::alloc::Global;

/// Ground atoms by new numbers.
pub(crate) fn rename_atoms(
    alloc: Global,
    numbers: &Numbers,
    atoms: &List<GroundAtom>,
) -> Result<List<GroundAtom>, NoMemory>
    ensures ok { IfOk result (λ made. made ≡ map (atom_by numbers.now) atoms.now) }
{
    let mut made = List::empty(alloc);
    for place in 0..atoms.len() {
        let atom = atoms.item(place);
        made.push(GroundAtom {
            predicate: number_at(&numbers.predicates, atom.predicate),
            objects: numbers_at(alloc, &numbers.objects, &atom.objects)?,
        })?;
    }
    Ok(made)
}

/// Function values by new numbers.
pub(crate) fn rename_values(
    alloc: Global,
    numbers: &Numbers,
    values: &List<(u32, List<u32>, u32)>,
) -> Result<List<(u32, List<u32>, u32)>, NoMemory>
    ensures ok { IfOk result (λ made. made ≡ map (value_by numbers.now) values.now) }
{
    let mut made = List::empty(alloc);
    for place in 0..values.len() {
        let (function, objects, number) = values.item(place);
        made.push((
            number_at(&numbers.functions, *function),
            numbers_at(alloc, &numbers.objects, objects)?,
            *number,
        ))?;
    }
    Ok(made)
}

/// An action schema by new numbers.
pub(crate) fn rename_schema(
    alloc: Global,
    numbers: &Numbers,
    schema: &Schema,
) -> Result<Schema, NoMemory>
    ensures ok { IfOk result (λ made. made ≡ schema_by numbers.now schema.now) }
{
    Ok(Schema {
        pre: rename_schema_atoms(alloc, numbers, &schema.pre)?,
        add: rename_schema_atoms(alloc, numbers, &schema.add)?,
        del: rename_schema_atoms(alloc, numbers, &schema.del)?,
        cost: rename_cost(alloc, numbers, &schema.cost)?,
    })
}

fn rename_schema_atoms(
    alloc: Global,
    numbers: &Numbers,
    atoms: &List<SchemaAtom>,
) -> Result<List<SchemaAtom>, NoMemory>
    ensures ok { IfOk result (λ made. made ≡ map (schema_atom_by numbers.now) atoms.now) }
{
    let mut made = List::empty(alloc);
    for place in 0..atoms.len() {
        let atom = atoms.item(place);
        made.push(SchemaAtom {
            predicate: number_at(&numbers.predicates, atom.predicate),
            args: rename_terms(alloc, numbers, &atom.args)?,
        })?;
    }
    Ok(made)
}

fn rename_cost(alloc: Global, numbers: &Numbers, cost: &CostExpr) -> Result<CostExpr, NoMemory>
    ensures ok { IfOk result (λ made. made ≡ cost_by numbers.now cost.now) }
{
    match cost {
        CostExpr::Number(number) => Ok(CostExpr::Number(*number)),
        CostExpr::Call { function, args } => Ok(CostExpr::Call {
            function: number_at(&numbers.functions, *function),
            args: rename_terms(alloc, numbers, args)?,
        }),
    }
}

fn rename_terms(
    alloc: Global,
    numbers: &Numbers,
    terms: &List<Term>,
) -> Result<List<Term>, NoMemory>
    ensures ok { IfOk result (λ made. made ≡ map (term_by numbers.now) terms.now) }
{
    let mut made = List::empty(alloc);
    for place in 0..terms.len() {
        made.push(rename_term(numbers, *terms.item(place)))?;
    }
    Ok(made)
}

fn rename_term(numbers: &Numbers, term: Term) -> Term
    ensures { result ≡ term_by numbers.now term }
{
    match term {
        Term::Param(position) => Term::Param(position),
        Term::Object(object) => Term::Object(number_at(&numbers.objects, object)),
    }
}
