//! Vocabularies and models, made from rows of names.

use super::rows::Rows;
use model_kit::{CostExpr, GroundAtom, Model, Schema, SchemaAtom, Signature, Term, Vocabulary};
use mre_base::{List, NoMemory, Text};
use std::alloc::Global;
use std::test::Fail;

// The word at a place, counted from 0, and no bytes where there is no word.
fn word(row: &str, place: usize) -> &str {
    match row.split_whitespace().nth(place) {
        Some(word) => word,
        None => "",
    }
}

fn is_blank(row: &str) -> bool {
    word(row, 0).is_empty()
}

// The place of the row that begins with a name, and the number of rows where none does.
fn number_of(rows: &str, name: &str) -> u32 {
    let mut number = 0u32;
    for row in rows.split(',') {
        if word(row, 0) == name {
            return number;
        }
        number = number.saturating_add(1);
    }
    number
}

// The numbers that the words after the first have among some rows.
fn numbers(alloc: Global, rows: &str, row: &str) -> Result<List<u32>, NoMemory> {
    let mut made = List::empty(alloc);
    for name in row.split_whitespace().skip(1) {
        made.push(number_of(rows, name))?;
    }
    Ok(made)
}

fn typed(alloc: Global, types: &str, rows: &str) -> Result<List<(Text, u32)>, NoMemory> {
    let mut made = List::empty(alloc);
    for row in rows.split(',') {
        if !is_blank(row) {
            let name = Text::of(alloc, word(row, 0))?;
            made.push((name, number_of(types, word(row, 1))))?;
        }
    }
    Ok(made)
}

fn signatures(alloc: Global, types: &str, rows: &str) -> Result<List<Signature>, NoMemory> {
    let mut made = List::empty(alloc);
    for row in rows.split(',') {
        if !is_blank(row) {
            made.push(Signature {
                name: Text::of(alloc, word(row, 0))?,
                params: numbers(alloc, types, row)?,
            })?;
        }
    }
    Ok(made)
}

// The vocabulary of the rows, if they make one.
fn words_of(alloc: Global, rows: &Rows) -> Result<Option<Vocabulary>, NoMemory> {
    Ok(Vocabulary::checked(
        typed(alloc, rows.types, rows.types)?,
        typed(alloc, rows.types, rows.objects)?,
        signatures(alloc, rows.types, rows.predicates)?,
        signatures(alloc, rows.types, rows.functions)?,
        signatures(alloc, rows.types, rows.actions)?,
    ))
}

// A ground atom, as `road hub mill`.
fn atom(alloc: Global, rows: &Rows, row: &str) -> Result<GroundAtom, NoMemory> {
    Ok(GroundAtom {
        predicate: number_of(rows.predicates, word(row, 0)),
        objects: numbers(alloc, rows.objects, row)?,
    })
}

// The number of a function.
fn function(rows: &Rows, row: &str) -> u32 {
    number_of(rows.functions, word(row, 0))
}

fn term(rows: &Rows, word: &str) -> Result<Term, Fail> {
    let Some(digits) = word.strip_prefix('?') else {
        return Ok(Term::Object(number_of(rows.objects, word)));
    };
    let position: u32 = digits.parse()?;
    Ok(Term::Param(position.saturating_sub(1)))
}

fn terms(alloc: Global, rows: &Rows, row: &str) -> Result<List<Term>, Fail> {
    let mut made = List::empty(alloc);
    for word in row.split_whitespace().skip(1) {
        made.push(term(rows, word)?)?;
    }
    Ok(made)
}

// An atom of a schema, as `road ?1 mill`.
fn schema_atom(alloc: Global, rows: &Rows, row: &str) -> Result<SchemaAtom, Fail> {
    Ok(SchemaAtom {
        predicate: number_of(rows.predicates, word(row, 0)),
        args: terms(alloc, rows, row)?,
    })
}

// A cost, as `10` or `road-length ?2 ?3`.
fn cost(alloc: Global, rows: &Rows, row: &str) -> Result<CostExpr, Fail> {
    if let Ok(number) = word(row, 0).parse::<u32>() {
        return Ok(CostExpr::Number(number));
    }
    Ok(CostExpr::Call {
        function: function(rows, row),
        args: terms(alloc, rows, row)?,
    })
}

fn atoms(alloc: Global, rows: &Rows, list: &str) -> Result<List<GroundAtom>, NoMemory> {
    let mut made = List::empty(alloc);
    for row in list.split(',') {
        if !is_blank(row) {
            made.push(atom(alloc, rows, row)?)?;
        }
    }
    Ok(made)
}

fn schema_atoms(alloc: Global, rows: &Rows, list: &str) -> Result<List<SchemaAtom>, Fail> {
    let mut made = List::empty(alloc);
    for row in list.split(',') {
        if !is_blank(row) {
            made.push(schema_atom(alloc, rows, row)?)?;
        }
    }
    Ok(made)
}

// The part at a place, counted from 0, between strokes.
fn part(text: &str, place: usize) -> &str {
    match text.split('/').nth(place) {
        Some(part) => part,
        None => "",
    }
}

// What an action needs, adds, deletes and costs, between strokes.
fn schema(alloc: Global, rows: &Rows, text: &str) -> Result<Schema, Fail> {
    Ok(Schema {
        pre: schema_atoms(alloc, rows, part(text, 0))?,
        add: schema_atoms(alloc, rows, part(text, 1))?,
        del: schema_atoms(alloc, rows, part(text, 2))?,
        cost: cost(alloc, rows, part(text, 3))?,
    })
}

fn schemas(alloc: Global, rows: &Rows) -> Result<List<Schema>, Fail> {
    let mut made = List::empty(alloc);
    for text in rows.schemas.split(';') {
        made.push(schema(alloc, rows, text)?)?;
    }
    Ok(made)
}

// Function values, as `road a b = 2`.
fn values(alloc: Global, rows: &Rows) -> Result<List<(u32, List<u32>, u32)>, Fail> {
    let mut made = List::empty(alloc);
    for row in rows.values.split(',') {
        if let Some((term, number)) = row.split_once('=') {
            let objects = numbers(alloc, rows.objects, term)?;
            made.push((function(rows, term), objects, number.trim().parse()?))?;
        }
    }
    Ok(made)
}

fn unknown(alloc: Global, rows: &Rows) -> Result<List<u32>, NoMemory> {
    let mut made = List::empty(alloc);
    for row in rows.unknown.split(',') {
        if !is_blank(row) {
            made.push(number_of(rows.actions, word(row, 0)))?;
        }
    }
    Ok(made)
}

// The model of the rows, if they make one.
fn model_of(alloc: Global, rows: &Rows) -> Result<Option<Model>, Fail> {
    let Some(words) = words_of(alloc, rows)? else {
        return Ok(None);
    };
    Ok(Model::checked(
        words,
        atoms(alloc, rows, rows.init)?,
        atoms(alloc, rows, rows.goal)?,
        schemas(alloc, rows)?,
        values(alloc, rows)?,
        unknown(alloc, rows)?,
    ))
}

pub fn are_words(alloc: Global, rows: &Rows) -> Result<bool, NoMemory> {
    Ok(words_of(alloc, rows)?.is_some())
}

pub fn are_model(alloc: Global, rows: &Rows) -> Result<bool, Fail> {
    Ok(model_of(alloc, rows)?.is_some())
}
