//! Law: well-named words have a vocabulary.

ghost use Rattle.std.specs.Prelude.{List};
ghost use Rattle.model_kit.specs.declared.vocabulary.Vocabulary.{Vocabulary};
ghost use Rattle.pddl_names.specs.Listings.{nothing};
ghost use Rattle.pddl_names.specs.Naming.{IsNamed};
ghost use Rattle.pddl_names.specs.declared.role.Word.{Word};
ghost use Rattle.pddl_vocabulary.specs.Formed.{AreFormed};
ghost use Rattle.pddl_vocabulary.specs.Values.{SaysWords, SaysMore};

/// Well-named, formed words of a domain have a vocabulary, and after the vocabulary of a domain formed
/// words of a problem have one of both.
pub fn law_vocabularies()
    ensures some { (said : List Word) → AreFormed said → IsNamed nothing said →
        (words : Vocabulary) × SaysWords said words }
    ensures more { (domain : Vocabulary) (said : List Word) → AreFormed said →
        (words : Vocabulary) × SaysMore domain said words }
{}
