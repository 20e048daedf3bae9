//! The kinds of cases, and what a line of the input does.
use crate::forms::{domain_form, problem_form};
use crate::reading::{domain_lines, domain_read, model_lines, plan_read, problem_read};
use mre_base::NoMemory;
use std::alloc::Global;

/// How texts are read.
#[derive(Clone, Copy)]
enum Kind {
    /// The sections of a domain, or of a problem of the given domain: whether they are read.
    Domains,
    Problems,
    /// A plan of the given problem: its steps.
    Plans,
    /// The words of a domain or a problem, each with what it does.
    DomainForms,
    ProblemForms,
    /// The lines of a domain, or of the model of a problem of the given domain.
    DomainLines,
    ModelLines,
}

/// The state after the lines so far: how texts are read, and the domain and the problem for them.
#[derive(Drop)]
pub struct Cases {
    kind: Kind,
    domain: String,
    problem: String,
}

fn kind_of(name: &str) -> Kind {
    match name {
        "problems" => Kind::Problems,
        "plans" => Kind::Plans,
        "domain forms" => Kind::DomainForms,
        "problem forms" => Kind::ProblemForms,
        "domain lines" => Kind::DomainLines,
        "model lines" => Kind::ModelLines,
        _ => Kind::Domains,
    }
}

// The text of a row, in lines.
fn in_lines(alloc: Global, row: &str) -> Result<String, NoMemory> {
    let mut text = String::new(alloc);
    for line in row.split('|') {
        text.push_str(line)?;
        text.push_str("\n")?;
    }
    Ok(text)
}

impl Cases {
    pub fn new(alloc: Global) -> Cases {
        Cases {
            kind: Kind::Domains,
            domain: String::new(alloc),
            problem: String::new(alloc),
        }
    }

    /// Takes one line, and gives what is printed for it.
    pub fn take(&mut self, alloc: Global, line: &str) -> Result<String, NoMemory> {
        if let Some(name) = line.strip_prefix("= ") {
            self.kind = kind_of(name);
        } else if let Some(text) = line.strip_prefix("domain ") {
            self.domain = in_lines(alloc, text)?;
        } else if let Some(text) = line.strip_prefix("problem ") {
            self.problem = in_lines(alloc, text)?;
        } else {
            let read = self.read(alloc, line)?;
            return Ok(format!(in alloc; "{line} => {read}\n")?);
        }
        Ok(String::new(alloc))
    }

    fn read(&self, alloc: Global, row: &str) -> Result<String, NoMemory> {
        let text = in_lines(alloc, row)?;
        let (domain, problem) = (self.domain.as_str(), self.problem.as_str());
        match self.kind {
            Kind::Domains => domain_read(alloc, text.as_str()),
            Kind::Problems => problem_read(alloc, domain, text.as_str()),
            Kind::Plans => plan_read(alloc, domain, problem, text.as_str()),
            Kind::DomainForms => domain_form(alloc, row),
            Kind::ProblemForms => problem_form(alloc, row),
            Kind::DomainLines => domain_lines(alloc, text.as_str()),
            Kind::ModelLines => model_lines(alloc, domain, text.as_str()),
        }
    }
}
