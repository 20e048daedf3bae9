//! Laws of the grammars and of their readings.
ghost use Rattle.std.specs.Prelude.{◌≡◌, ◌⊎◌, ◌↔◌, ℕ, List, Some, map};
ghost use Rattle.pddl_text.specs.Forests.{tokens_of_all};
ghost use Rattle.pddl_text.specs.Tokens.{Token};
ghost use Rattle.pddl_text.specs.declared.fault.TextFault.{TextFault};
ghost use Rattle.pddl_text.specs.declared.tree.Forest.{Forest};
ghost use Rattle.pddl_form.specs.First.{IsWhole, HasForm, LeavesForm, IsText};
ghost use Rattle.pddl_form.specs.Grammar.{sign, IsDomain, IsProblem};
ghost use Rattle.pddl_form.specs.Numbers.{number, SpellsNumber};
ghost use Rattle.pddl_form.specs.declared.parts.Met.{Met};
ghost use Rattle.pddl_form.specs.declared.parts.Part.{Part};
ghost use Rattle.pddl_form.specs.declared.parts.Part.TheVariants as part;

/// Each forest is a text of a grammar, with one list of words, or leaves it with one first fault,
/// and never both.
pub fn law_forms()
    ensures either { (start : Part) → IsWhole start → (forest : Forest) →
        ((words : List Met) × HasForm start (tokens_of_all forest.trees) words)
        ⊎ ((found : TextFault) × LeavesForm start forest found) }
    ensures never_both { (start : Part) → IsWhole start →
        (forest : Forest) (words : List Met) (found : TextFault) →
        HasForm start (tokens_of_all forest.trees) words → LeavesForm start forest found → ⊥ }
    ensures one_list { (start : Part) → IsWhole start →
        (forest : Forest) (words others : List Met) →
        HasForm start (tokens_of_all forest.trees) words
        → HasForm start (tokens_of_all forest.trees) others → words ≡ others }
    ensures one_fault { (start : Part) → IsWhole start →
        (forest : Forest) (found other : TextFault) →
        LeavesForm start forest found → LeavesForm start forest other → found ≡ other }
{}

/// The table's texts of domains are those of the grammar.
pub fn law_domains()
    ensures { (tokens : List Token) →
        IsText part.Domain tokens ↔ IsDomain (map sign tokens) }
{}

/// The table's texts of problems are those of the grammar.
pub fn law_problems()
    ensures { (tokens : List Token) →
        IsText part.Problem tokens ↔ IsProblem (map sign tokens) }
{}

/// A word has exactly the number that its digits spell.
pub fn law_numbers()
    ensures { (text : List ℕ) (n : ℕ) → (number text ≡ Some n) ↔ SpellsNumber text n }
{}
