//! Laws of the readings: each text has exactly one.
ghost use Rattle.std.specs.Prelude.{◌≡◌, ◌⊎◌, ℕ, List};
ghost use Rattle.pddl_text.specs.declared.fault.TextFault.{TextFault};
ghost use Rattle.model_kit.specs.declared.model.Model.{Model};
ghost use Rattle.pddl_models.specs.declared.domain.Domain.{Domain};
ghost use Rattle.pddl_read.specs.Texts.{IsDomainText, IsDomainFault, IsProblemText, IsProblemFault};

/// Each text has one domain or one first fault, and never both.
pub fn law_domains()
    ensures either { (bytes : List ℕ) →
        ((domain : Domain) × IsDomainText bytes domain)
        ⊎ ((fault : TextFault) × IsDomainFault bytes fault) }
    ensures never_both { (bytes : List ℕ) (domain : Domain) (fault : TextFault) →
        IsDomainText bytes domain → IsDomainFault bytes fault → ⊥ }
    ensures one_domain { (bytes : List ℕ) (domain other : Domain) →
        IsDomainText bytes domain → IsDomainText bytes other → domain ≡ other }
    ensures one_fault { (bytes : List ℕ) (fault other : TextFault) →
        IsDomainFault bytes fault → IsDomainFault bytes other → fault ≡ other }
{}

/// For each domain, each text of a problem has one model or one first fault, and never both.
pub fn law_problems()
    ensures either { (domain : Domain) (bytes : List ℕ) →
        ((model : Model) × IsProblemText domain bytes model)
        ⊎ ((fault : TextFault) × IsProblemFault domain bytes fault) }
    ensures never_both { (domain : Domain) (bytes : List ℕ) (model : Model) (fault : TextFault) →
        IsProblemText domain bytes model → IsProblemFault domain bytes fault → ⊥ }
    ensures one_model { (domain : Domain) (bytes : List ℕ) (model other : Model) →
        IsProblemText domain bytes model → IsProblemText domain bytes other → model ≡ other }
    ensures one_fault { (domain : Domain) (bytes : List ℕ) (fault other : TextFault) →
        IsProblemFault domain bytes fault → IsProblemFault domain bytes other → fault ≡ other }
{}
