//! Law: well-named words have a domain, and those of a problem a model.

ghost use Rattle.std.specs.Prelude.{List};
ghost use Rattle.model_kit.specs.declared.model.Model.{Model};
ghost use Rattle.model_kit.specs.declared.vocabulary.Vocabulary.{Vocabulary};
ghost use Rattle.pddl_names.specs.Listings.{nothing};
ghost use Rattle.pddl_names.specs.Naming.{IsNamed};
ghost use Rattle.pddl_names.specs.Texts.{declared_by};
ghost use Rattle.pddl_names.specs.declared.role.Word.{Word};
ghost use Rattle.pddl_vocabulary.specs.Values.{SaysWords, SaysMore};
ghost use Rattle.pddl_models.specs.Saying.{AreNoTotals, AreOfProblem};
ghost use Rattle.pddl_models.specs.Says.{SaysDomain, SaysModel};
ghost use Rattle.pddl_models.specs.declared.domain.Domain.{Domain};

/// Well-named words of a domain have a domain over their vocabulary, and after a domain those of a
/// problem have a model over the vocabulary of both.
pub fn law_saying()
    ensures some_domain { (said : List Word) (words : Vocabulary) →
        SaysWords said words → IsNamed nothing said → AreNoTotals said →
        (domain : Domain) × SaysDomain said domain }
    ensures some_model { (domain : Domain) (said : List Word) (words : Vocabulary) →
        SaysMore domain.words said words → IsNamed (declared_by domain.words) said →
        AreNoTotals said → AreOfProblem said →
        (model : Model) × SaysModel domain said model }
{}
