//! Law: in a text of the grammar names are names and numbers are numbers.

ghost use Rattle.std.specs.Prelude.{ℕ, List};
ghost use Rattle.pddl_form.specs.First.{HasForm};
ghost use Rattle.pddl_form.specs.declared.parts.Met.{Met};
ghost use Rattle.pddl_form.specs.declared.parts.Part.{Part};
ghost use Rattle.pddl_text.specs.Forests.{Spells, tokens_of_all};
ghost use Rattle.pddl_text.specs.declared.tree.Forest.{Forest};
ghost use Rattle.pddl_vocabulary.specs.Formed.{AreFormed};
ghost use Rattle.pddl_names.specs.Roles.{words_of};

/// In a text of the grammar each word is what its place asks for: where a name is expected it is a
/// name in lower case, and where a number is expected it is a number.
pub fn law_formed()
    ensures formed { (start : Part) (bytes : List ℕ) (forest : Forest) (met : List Met) →
        Spells bytes forest → HasForm start (tokens_of_all forest.trees) met →
        AreFormed (words_of met) }
{}
