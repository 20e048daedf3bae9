//! Law: the roles that words have in texts of the grammar.

ghost use Rattle.std.specs.Prelude.{List};
ghost use Rattle.pddl_text.specs.Tokens.{Token};
ghost use Rattle.pddl_form.specs.First.{HasForm};
ghost use Rattle.pddl_form.specs.declared.parts.Met.{Met};
ghost use Rattle.pddl_form.specs.declared.parts.Part.{Part};
ghost use Rattle.pddl_form.specs.declared.parts.Part.TheVariants as part;
ghost use Rattle.pddl_names.specs.Roles.{words_of};
ghost use Rattle.pddl_models.specs.Saying.{AreNoTotals, AreOfProblem};

/// In a text of the grammar `total-cost` isn't the function of a cost or a value, and the words of a
/// problem declare only objects.
pub fn law_roles()
    ensures calls { (start : Part) (tokens : List Token) (met : List Met) →
        HasForm start tokens met → AreNoTotals (words_of met) }
    ensures problem { (tokens : List Token) (met : List Met) →
        HasForm part.Problem tokens met → AreOfProblem (words_of met) }
{}
