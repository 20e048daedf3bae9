//! Laws of the readings: each text has exactly one.
ghost use Rattle.std.specs.Prelude.{◌≡◌, ◌⊎◌, ℕ, List};
ghost use Rattle.pddl_text.specs.Forests.{Spells, IsFirstFault};
ghost use Rattle.pddl_text.specs.Plans.{SpellsPlan, LeavesPlan};
ghost use Rattle.pddl_text.specs.Tokens.{HasTokens, Token};
ghost use Rattle.pddl_text.specs.declared.fault.TextFault.{TextFault};
ghost use Rattle.pddl_text.specs.declared.place.Spot.{Spot};
ghost use Rattle.pddl_text.specs.declared.plan.PlanLine.{PlanLine};
ghost use Rattle.pddl_text.specs.declared.tree.Forest.{Forest};

/// From each spot on, bytes have tokens, and only one list of them.
pub fn law_tokens()
    ensures some { (spot : Spot) (bytes : List ℕ) →
        (tokens : List Token) × HasTokens spot bytes tokens }
    ensures one { (spot : Spot) (bytes : List ℕ) (tokens others : List Token) →
        HasTokens spot bytes tokens → HasTokens spot bytes others → tokens ≡ others }
{}

/// Each text spells a forest or has a first fault, never both, and only one of either.
pub fn law_forests()
    ensures either { (bytes : List ℕ) →
        ((forest : Forest) × Spells bytes forest)
        ⊎ ((fault : TextFault) × IsFirstFault bytes fault) }
    ensures never_both { (bytes : List ℕ) (forest : Forest) (fault : TextFault) →
        Spells bytes forest → IsFirstFault bytes fault → ⊥ }
    ensures one_forest { (bytes : List ℕ) (forest other : Forest) →
        Spells bytes forest → Spells bytes other → forest ≡ other }
    ensures one_fault { (bytes : List ℕ) (fault other : TextFault) →
        IsFirstFault bytes fault → IsFirstFault bytes other → fault ≡ other }
{}

/// Each text spells the lines of a plan or leaves their form somewhere first, never both, and only
/// one of either.
pub fn law_plans()
    ensures either { (bytes : List ℕ) →
        ((lines : List PlanLine) × SpellsPlan bytes lines)
        ⊎ ((fault : TextFault) × LeavesPlan bytes fault) }
    ensures never_both { (bytes : List ℕ) (lines : List PlanLine) (fault : TextFault) →
        SpellsPlan bytes lines → LeavesPlan bytes fault → ⊥ }
    ensures one_plan { (bytes : List ℕ) (lines others : List PlanLine) →
        SpellsPlan bytes lines → SpellsPlan bytes others → lines ≡ others }
    ensures one_fault { (bytes : List ℕ) (fault other : TextFault) →
        LeavesPlan bytes fault → LeavesPlan bytes other → fault ≡ other }
{}
