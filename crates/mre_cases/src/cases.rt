//! The lines of the cases, and the state between them.
use crate::calling::call;
use crate::failing::{Failing, failing_of};
use crate::repeating::push_line;
use mre_base::NoMemory;
use std::alloc::Global;

/// A text and its name.
#[derive(Drop)]
struct Named {
    name: String,
    text: String,
}

/// The lines so far: the texts, the text that isn't ended yet, and of the next call its words and
/// what fails in it.
#[derive(Drop)]
pub struct Cases {
    texts: Vec<Named>,
    open: Option<Named>,
    words: String,
    failing: Option<Failing>,
}

impl Cases {
    pub fn new(alloc: Global) -> Cases {
        Cases {
            texts: Vec::new(alloc),
            open: None,
            words: String::new(alloc),
            failing: None,
        }
    }

    /// Takes one line, and returns what is printed for it.
    pub fn take(&mut self, alloc: Global, line: &str) -> Result<String, NoMemory> {
        match self.open.take() {
            Some(open) => self.go_on(open, line)?,
            None => match line.strip_prefix("text ") {
                Some(name) => self.begin(alloc, name)?,
                None => return self.say(alloc, line),
            },
        }
        Ok(String::new(alloc))
    }

    fn begin(&mut self, alloc: Global, name: &str) -> Result<(), NoMemory> {
        self.open = Some(Named {
            name: String::from_str(alloc, name)?,
            text: String::new(alloc),
        });
        Ok(())
    }

    // A line of a text, or its end.
    fn go_on(&mut self, open: Named, line: &str) -> Result<(), NoMemory> {
        let Named { name, mut text } = open;
        if line == "cut" {
            let _last = text.pop();
        }
        if line == "end" || line == "cut" {
            self.texts.push(Named { name, text })?;
            return Ok(());
        }
        push_line(&mut text, line)?;
        self.open = Some(Named { name, text });
        Ok(())
    }

    // A line outside of texts: the names of a call's texts, what fails in it, or its words.
    fn say(&mut self, alloc: Global, line: &str) -> Result<String, NoMemory> {
        if let Some(names) = line.strip_prefix("over ") {
            let failing = self.failing.take();
            return self.ended(alloc, names, failing);
        }
        match failing_of(line) {
            Some(failing) => self.failing = Some(failing),
            None => self.words = String::from_str(alloc, line)?,
        }
        Ok(String::new(alloc))
    }

    // The call over the texts with these names, and how it ends.
    fn ended(
        &self,
        alloc: Global,
        names: &str,
        failing: Option<Failing>,
    ) -> Result<String, NoMemory> {
        let words = self.words.as_str();
        let ended = call(alloc, words, self.five(names), failing)?;
        let Some(numbers) = failing else {
            return Ok(format!(in alloc; "{words} over {names}\n{ended}")?);
        };
        let (read, answer, refusal) = (numbers.read, numbers.answer, numbers.refusal);
        Ok(format!(in alloc; "{words} over {names} failing {read} {answer} {refusal}\n{ended}")?)
    }

    // The texts with these names.
    fn five(&self, names: &str) -> [&str; 5] {
        [
            self.text(word(names, 0)),
            self.text(word(names, 1)),
            self.text(word(names, 2)),
            self.text(word(names, 3)),
            self.text(word(names, 4)),
        ]
    }

    // The last text with a name, or an empty one.
    fn text(&self, name: &str) -> &str {
        let mut found = "";
        for named in &self.texts {
            if named.name.as_str() == name {
                found = named.text.as_str();
            }
        }
        found
    }
}

// The word at a place, counted from 0.
fn word(line: &str, place: usize) -> &str {
    let mut left = place;
    for word in line.split(' ') {
        if left == 0 {
            return word;
        }
        left -= 1;
    }
    ""
}
