//! Laws of names: each text and each plan is well named or has one first fault.

ghost use Rattle.std.specs.Prelude.{◌≡◌, ◌⊎◌, ◌<◌, ℕ, List, All, length};
ghost use Rattle.pddl_text.specs.declared.fault.TextFault.{TextFault};
ghost use Rattle.pddl_text.specs.declared.plan.PlanLine.{PlanLine};
ghost use Rattle.model_kit.specs.declared.action.GroundAction.{GroundAction};
ghost use Rattle.model_kit.specs.declared.action.Plan.{Plan};
ghost use Rattle.model_kit.specs.declared.vocabulary.Vocabulary.{Vocabulary};
ghost use Rattle.pddl_names.specs.PlanNames.{IsPlan, IsFirstMisnamed, IsPlanText, IsFirstFault};
ghost use Rattle.pddl_names.specs.PlanNames.{AreNamed};
ghost use Rattle.pddl_names.specs.Listings.{Declared};
ghost use Rattle.pddl_names.specs.Naming.{IsNamed, IsMisnamed};
ghost use Rattle.pddl_names.specs.Texts.{IsSaid, IsUnsaid};
ghost use Rattle.pddl_names.specs.declared.role.Word.{Word};
ghost use Rattle.pddl_form.specs.First.{IsWhole};
ghost use Rattle.pddl_form.specs.declared.parts.Part.{Part};

/// Over each vocabulary, lines that each have a word are the steps of a plan or have a first fault
/// at a name, never both, and only one of either.
pub fn law_steps()
    ensures either { (words : Vocabulary) (lines : List PlanLine) → AreNamed lines →
        ((steps : List GroundAction) × IsPlan words lines steps)
        ⊎ ((fault : TextFault) × IsFirstMisnamed words lines fault) }
    ensures never_both { (words : Vocabulary) (lines : List PlanLine)
        (steps : List GroundAction) (fault : TextFault) → AreNamed lines →
        IsPlan words lines steps → IsFirstMisnamed words lines fault → ⊥ }
    ensures one_plan { (words : Vocabulary) (lines : List PlanLine)
        (steps others : List GroundAction) → AreNamed lines →
        IsPlan words lines steps → IsPlan words lines others → steps ≡ others }
    ensures one_fault { (words : Vocabulary) (lines : List PlanLine)
        (fault other : TextFault) → AreNamed lines →
        IsFirstMisnamed words lines fault → IsFirstMisnamed words lines other → fault ≡ other }
{}

/// Over each vocabulary, each text is a plan or has a first fault, never both, and only one of
/// either.
pub fn law_plans()
    ensures either { (words : Vocabulary) (bytes : List ℕ) →
        ((plan : Plan) × IsPlanText words bytes plan)
        ⊎ ((fault : TextFault) × IsFirstFault words bytes fault) }
    ensures never_both { (words : Vocabulary) (bytes : List ℕ) (plan : Plan) (fault : TextFault) →
        IsPlanText words bytes plan → IsFirstFault words bytes fault → ⊥ }
    ensures one_plan { (words : Vocabulary) (bytes : List ℕ) (plan other : Plan) →
        IsPlanText words bytes plan → IsPlanText words bytes other → plan ≡ other }
    ensures one_fault { (words : Vocabulary) (bytes : List ℕ) (fault other : TextFault) →
        IsFirstFault words bytes fault → IsFirstFault words bytes other → fault ≡ other }
{}

/// After what was declared before, the words of a domain or a problem break no rule of names, or one
/// of them has the first fault, never both, and there is at most one first fault.
pub fn law_names()
    ensures either { (base : Declared) (words : List Word) →
        IsNamed base words ⊎ ((fault : TextFault) × IsMisnamed base words fault) }
    ensures never_both { (base : Declared) (words : List Word) (fault : TextFault) →
        IsNamed base words → IsMisnamed base words fault → ⊥ }
    ensures one_fault { (base : Declared) (words : List Word) (fault other : TextFault) →
        IsMisnamed base words fault → IsMisnamed base words other → fault ≡ other }
{}

/// Behind what was declared before, each text says the words of a domain or a problem or has a
/// first
/// fault, never both, and only one of either.
pub fn law_texts()
    ensures either { (start : Part) → IsWhole start → (base : Declared) (bytes : List ℕ) →
        ((said : List Word) × IsSaid start base bytes said)
        ⊎ ((fault : TextFault) × IsUnsaid start base bytes fault) }
    ensures never_both { (start : Part) → IsWhole start → (base : Declared) (bytes : List ℕ)
        (said : List Word) (fault : TextFault) →
        IsSaid start base bytes said → IsUnsaid start base bytes fault → ⊥ }
    ensures one_list { (start : Part) → IsWhole start → (base : Declared) (bytes : List ℕ)
        (said others : List Word) →
        IsSaid start base bytes said → IsSaid start base bytes others → said ≡ others }
    ensures one_fault { (start : Part) → IsWhole start → (base : Declared) (bytes : List ℕ)
        (fault other : TextFault) →
        IsUnsaid start base bytes fault → IsUnsaid start base bytes other → fault ≡ other }
{}
