//! The texts of a case, cut out of the input.

use crate::grounding::grounded;
use crate::patching::patched_lines;
use crate::telling::{Detail, tell};
use mre_base::NoMemory;
use std::alloc::Global;

/// The texts of a pair, as the last lines have them.
#[derive(Drop)]
pub struct Cases {
    pub domain: String,
    pub problem: String,
    pub user_domain: String,
    pub user_problem: String,
}

impl Cases {
    pub fn new(alloc: Global) -> Cases {
        Cases {
            domain: String::new(alloc),
            problem: String::new(alloc),
            user_domain: String::new(alloc),
            user_problem: String::new(alloc),
        }
    }

    /// Takes one line, and gives what is to be printed.
    pub fn take(&mut self, alloc: Global, line: &str) -> Result<String, NoMemory> {
        let part = match line {
            "table" => Detail::Whole,
            "names" => Detail::Names,
            "counts" => Detail::Counts,
            _ => return self.take_text(alloc, line),
        };
        tell(alloc, &grounded(alloc, self), part)
    }

    // Takes a line that asks for no table: for the user's model, or one with a text.
    fn take_text(&mut self, alloc: Global, line: &str) -> Result<String, NoMemory> {
        if let Some(number) = line.strip_prefix("told ") {
            let count = number.parse::<u32>().unwrap_or(0);
            return patched_lines(alloc, self, count);
        }
        self.keep(alloc, line)?;
        Ok(String::new(alloc))
    }

    fn keep(&mut self, alloc: Global, line: &str) -> Result<(), NoMemory> {
        if let Some(text) = line.strip_prefix("domain ") {
            self.domain = String::from_str(alloc, text)?;
        }
        if let Some(text) = line.strip_prefix("problem ") {
            self.problem = String::from_str(alloc, text)?;
        }
        if let Some(text) = line.strip_prefix("user-domain ") {
            self.user_domain = String::from_str(alloc, text)?;
        }
        if let Some(text) = line.strip_prefix("user-problem ") {
            self.user_problem = String::from_str(alloc, text)?;
        }
        Ok(())
    }
}
