//! How many parameters predicates and functions have, by name.

ghost use Rattle.std.specs.Prelude.{◌≡◌, ◌<◌, ◌^◌, ◌++◌, ℕ, List, length, map, IfOk, OnOk, IsTrue};
ghost use Rattle.std.specs.Option.{option_or};
ghost use Rattle.mre_base.specs.declared.text.Text as texts;
ghost use Rattle.pddl_names.specs.Arities.{count_in, is_signed, signed_in, signed_before, arity_of};
ghost use Rattle.pddl_names.specs.Arities.{AreArities, PutsCount};
ghost use Rattle.pddl_names.specs.Groups.{AreParamCounts};

use crate::kind::Kind;
use crate::role::Word;
use model_kit::Signature;
use mre_base::{List, NoMemory, Text};
use std::alloc::Global;
use std::collections::BTreeMap;

/// How many parameters the thing with a name has; a name that is declared again keeps its first number.
#[derive(Drop)]
pub struct Arities {
    counts: BTreeMap<Text, usize>,
}

impl Arities {
    /// Of the predicates or the functions of the words, after those that were declared before;
    /// `behind` has how many parameters follow each word.
    pub fn of(
        alloc: Global,
        base: &List<Signature>,
        words: &List<Word>,
        kind: Kind,
        behind: &Vec<u32>,
    ) -> Result<Arities, NoMemory>
        requires kind { IsTrue (is_signed kind) }
        requires behind { AreParamCounts words.now behind.now.items }
        ensures ok { IfOk result (λ made. (types : List (texts.Text × ℕ)) →
            AreArities (signed_before types base.now ++ signed_in kind words.now) made) }
    {
        Arities::of_words(alloc, words, kind, behind)?.with_base(alloc, base)
    }

    // Only of the predicates or the functions of the words.
    fn of_words(
        alloc: Global,
        words: &List<Word>,
        kind: Kind,
        behind: &Vec<u32>,
    ) -> Result<Arities, NoMemory>
        requires kind { IsTrue (is_signed kind) }
        requires behind { AreParamCounts words.now behind.now.items }
        ensures ok { IfOk result (λ made. AreArities (signed_in kind words.now) made) }
    {
        let mut made = Arities {
            counts: BTreeMap::new(alloc),
        };
        for place in (0..words.len()).rev() {
            let word = words.item(place);
            if kind.has(word.role) {
                made.put(alloc, &word.text, behind[place] as usize)?;
            }
        }
        Ok(made)
    }

    // With what was declared before, which comes before what is in the table.
    fn with_base(self, alloc: Global, base: &List<Signature>) -> Result<Arities, NoMemory>
        ensures ok { IfOk result (λ made. (types : List (texts.Text × ℕ)) (name : texts.Text) →
            count_in made name ≡ option_or (arity_of (signed_before types base.now) name) (count_in
            self name)) }
    {
        let mut made = self;
        for place in (0..base.len()).rev() {
            let signature = base.item(place);
            made.put(alloc, &signature.name, signature.params.len())?;
        }
        Ok(made)
    }

    // Gives a name a count, in place of any count that it had.
    fn put(&mut self, alloc: Global, name: &Text, count: usize) -> Result<(), NoMemory>
        ensures ok { OnOk result (PutsCount self.old self.new name.now count) }
    {
        self.counts.insert(name.copy(alloc)?, count)?;
        Ok(())
    }

    /// How many parameters what is declared by the name has.
    pub fn count(&self, name: &Text) -> Option<usize>
        ensures { result ≡ count_in self.now name.now }
    {
        self.counts.get(name).copied()
    }
}
