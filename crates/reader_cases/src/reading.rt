//! Cases of readings: the lines of a domain, a model or a plan, or a text's first fault.
ghost use Rattle.std.specs.Prelude.{◌<◌, ◌^◌, length, IfOk};
ghost use Rattle.pddl_read.specs.Texts.{AreFew};

use model_kit::Model;
use model_lines::{domain_text, model_text, plan_text};
use mre_base::NoMemory;
use pddl_read::{Domain, read_domain, read_plan, read_problem};
use pddl_text::ReadStop;
use std::alloc::Global;

/// The bytes that a text may have here.
const TEXT_LIMIT: usize = 100_000;

// The domain of a text.
fn domain_of(alloc: Global, text: &str) -> Result<Domain, ReadStop>
    ensures few { IfOk result (λ domain. AreFew domain.words (2 ^ 29)) }
{
    if text.len() > TEXT_LIMIT {
        return Err(ReadStop::NoMemory);
    }
    read_domain(alloc, text.as_bytes())
}

// The model of a problem of a domain.
fn model_of(alloc: Global, domain: &Domain, text: &str) -> Result<Model, ReadStop>
    requires few { AreFew domain.now.words (2 ^ 29) }
    ensures few { IfOk result (λ model. AreFew model.words (2 ^ 30)) }
{
    if text.len() > TEXT_LIMIT {
        return Err(ReadStop::NoMemory);
    }
    read_problem(alloc, text.as_bytes(), domain)
}

// The model of two texts.
fn model_in(alloc: Global, domain: &str, problem: &str) -> Result<Model, ReadStop>
    ensures few { IfOk result (λ model. AreFew model.words (2 ^ 30)) }
{
    let domain = domain_of(alloc, domain)?;
    model_of(alloc, &domain, problem)
}

// The lines of a text, or its first fault.
fn lines_or_fault(alloc: Global, read: Result<String, ReadStop>) -> Result<String, NoMemory> {
    match read {
        Ok(text) => Ok(text),
        Err(ReadStop::Fault(fault)) => fault.printed(alloc),
        Err(ReadStop::NoMemory) => Err(NoMemory),
    }
}

// Lines as one row.
fn in_row(alloc: Global, text: &str) -> Result<String, NoMemory> {
    let mut row = String::new(alloc);
    for line in text.lines() {
        if !row.is_empty() {
            row.push_str("|")?;
        }
        row.push_str(line)?;
    }
    Ok(row)
}

// `read` for a text that has a value, else its first fault.
fn is_read<T>(alloc: Global, read: &Result<T, ReadStop>) -> Result<String, NoMemory> {
    match read {
        Ok(_) => Ok(String::from_str(alloc, "read")?),
        Err(ReadStop::Fault(fault)) => fault.printed(alloc),
        Err(ReadStop::NoMemory) => Err(NoMemory),
    }
}

/// `read` for a domain with these sections, or its first fault.
pub fn domain_read(alloc: Global, sections: &str) -> Result<String, NoMemory> {
    let text = format!(in alloc; "(define (domain d)\n{sections})")?;
    is_read(alloc, &domain_of(alloc, text.as_str()))
}

/// `read` for a problem of the domain with these sections, or its first fault.
pub fn problem_read(alloc: Global, domain: &str, sections: &str) -> Result<String, NoMemory> {
    let text = format!(in alloc; "(define (problem x) (:domain d)\n{sections})")?;
    is_read(alloc, &model_in(alloc, domain, text.as_str()))
}

// The lines of a domain, of a model, of a plan.
fn lines_of_domain(alloc: Global, text: &str) -> Result<String, ReadStop> {
    let domain = domain_of(alloc, text)?;
    Ok(domain_text(alloc, &domain)?)
}

fn lines_of_model(alloc: Global, domain: &str, text: &str) -> Result<String, ReadStop> {
    let model = model_in(alloc, domain, text)?;
    Ok(model_text(alloc, &model)?)
}

fn steps_of(alloc: Global, model: &Model, text: &str) -> Result<String, ReadStop>
    requires few { AreFew model.now.words (2 ^ 30) }
{
    if text.len() > TEXT_LIMIT {
        return Err(ReadStop::NoMemory);
    }
    let plan = read_plan(alloc, text.as_bytes(), &model.words)?;
    Ok(plan_text(alloc, &model.words, &plan)?)
}

fn lines_of_plan(
    alloc: Global,
    domain: &str,
    problem: &str,
    text: &str,
) -> Result<String, ReadStop> {
    let model = model_in(alloc, domain, problem)?;
    steps_of(alloc, &model, text)
}

/// The lines of a domain, in one row.
pub fn domain_lines(alloc: Global, text: &str) -> Result<String, NoMemory> {
    let lines = lines_or_fault(alloc, lines_of_domain(alloc, text))?;
    in_row(alloc, lines.as_str())
}

/// The lines of the model of a problem of the domain, in one row.
pub fn model_lines(alloc: Global, domain: &str, text: &str) -> Result<String, NoMemory> {
    let lines = lines_or_fault(alloc, lines_of_model(alloc, domain, text))?;
    in_row(alloc, lines.as_str())
}

/// The steps of a plan for the domain and the problem, in one row.
pub fn plan_read(
    alloc: Global,
    domain: &str,
    problem: &str,
    text: &str,
) -> Result<String, NoMemory> {
    let lines = lines_or_fault(alloc, lines_of_plan(alloc, domain, problem, text))?;
    in_row(alloc, lines.as_str())
}
