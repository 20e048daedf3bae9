//! What is known of the heads of atoms, costs and values.

ghost use Rattle.std.specs.Prelude.{IsTrue, List, ◌≡◌, ◌<◌, ◌^◌, ◌+◌, length, drop, IfSome, IfOk};
ghost use Rattle.std.specs.Prelude.{slice_get};
ghost use Rattle.pddl_names.specs.declared.role.Word as said;
ghost use Rattle.pddl_names.specs.Heads.{AreHeads, due_count, is_head, is_unknown_head};
ghost use Rattle.pddl_names.specs.Listings.{Declared};
ghost use Rattle.pddl_names.specs.Naming.{is_undeclared, is_wrong_arity};

use crate::arities::Arities;
use crate::role::{Role, Word};
use mre_base::List;

/// What is known of heads: how many parameters the predicates and the functions have, and how many
/// terms and parameters follow each word.
pub struct Heads {
    pub predicates: Arities,
    pub functions: Arities,
    pub terms: Vec<u32>,
    pub params: Vec<u32>,
}

impl Drop for Heads {
    fn drop(self) {
        let Heads {
            predicates: _,
            functions: _,
            terms: _,
            params: _,
        } = self;
    }
}

impl Heads {
    // How many terms a word must have, if it is a declared head.
    fn due_count(&self, words: &List<Word>, word: &Word) -> Option<usize>
        ensures { (known : Declared) → AreHeads known words.now self.now →
            result ≡ due_count known word.now }
    {
        match word.role {
            Role::Head { .. } => self.predicates.count(&word.text),
            Role::Cost | Role::Value => self.functions.count(&word.text),
            _ => None,
        }
    }

    /// Whether a word is a head that nothing declares.
    pub fn is_unknown(&self, words: &List<Word>, word: &Word) -> bool
        ensures head { (known : Declared) → AreHeads known words.now self.now →
            result ≡ is_unknown_head known word.now }
        ensures undeclared { (known : Declared) (before rest : List said.Word) →
            AreHeads known words.now self.now → IsTrue (is_head word.now.role) →
            result ≡ is_undeclared known before word.now rest }
    {
        is_head(word.role) && self.due_count(words, word).is_none()
    }

    /// Whether a word is a head with another number of terms than is declared, or declares
    /// `total-cost` with parameters.
    pub fn is_wrong_arity(&self, words: &List<Word>, place: usize) -> bool
        requires place { place < length words.now }
        requires terms { length self.now.terms.items ≡ length words.now }
        requires params { length self.now.params.items ≡ length words.now }
        ensures { (known : Declared) → AreHeads known words.now self.now →
            IfSome (slice_get words.now place) (λ w.
            result ≡ is_wrong_arity known w (drop (place + 1) words.now)) }
    {
        let word = words.item(place);
        if matches!(&word.role, Role::Function) {
            return self.params[place] > 0 && word.text.as_str() == "total-cost";
        }
        match self.due_count(words, word) {
            None => false,
            Some(due) => due != self.terms[place] as usize,
        }
    }
}

// Whether a word of this role is the head of an atom, a cost or a value.
fn is_head(role: Role) -> bool
    ensures { result ≡ is_head role }
{
    matches!(role, Role::Head { .. } | Role::Cost | Role::Value)
}
