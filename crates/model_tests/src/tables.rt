//! Models from texts of PDDL, in which a `|` may mean the end of a line.
ghost use Rattle.std.specs.Prelude.{◌^◌, IfOk};
ghost use Rattle.pddl_read.specs.Texts.{AreFew};

use model_kit::Model;
use pddl_read::{Domain, read_domain, read_problem};
use std::alloc::Global;
use std::process::Abort;
use std::test::Fail;

/// The text of a row, in lines.
pub fn in_lines(alloc: Global, row: &str) -> Result<String, Fail> {
    let mut text = String::new(alloc);
    for line in row.split('|') {
        text.push_str(line)?;
        text.push_str("\n")?;
    }
    Ok(text)
}

// The domain of a text.
fn domain(rt: &impl Abort, alloc: Global, text: &str) -> Result<Domain, Fail>
    ensures few { IfOk result (λ domain. AreFew domain.words (2 ^ 29)) }
{
    let bytes = text.as_bytes();
    assert!(rt; bytes.len() < 10000);
    match read_domain(alloc, bytes) {
        Ok(domain) => Ok(domain),
        Err(_) => Err(Fail::from("no domain")),
    }
}

/// The model of a domain and a problem of it.
pub fn model(rt: &impl Abort, alloc: Global, domain_text: &str, text: &str) -> Result<Model, Fail>
    ensures few { IfOk result (λ model. AreFew model.words (2 ^ 30)) }
{
    let domain = domain(rt, alloc, domain_text)?;
    let bytes = text.as_bytes();
    assert!(rt; bytes.len() < 10000);
    match read_problem(alloc, bytes, &domain) {
        Ok(model) => Ok(model),
        Err(_) => Err(Fail::from("no problem")),
    }
}
