//! The law of used numbers.

ghost use Rattle.std.specs.Prelude.{ℕ, ◌↔◌, Contains};
ghost use Rattle.std.specs.Prelude.{List as ListOf};
ghost use Rattle.model_kit.specs.declared.action.GroundAction.{GroundAction};
ghost use Rattle.model_kit.specs.Places.{Place};
ghost use Rattle.plan_uses.specs.Uses.{IsUsedAt, used_numbers};

/// The list of used numbers has exactly the numbers of the places that the plan uses.
pub fn law_used_numbers()
    ensures { (plan : ListOf GroundAction) (places : ListOf Place) (number : ℕ)
        → Contains (used_numbers plan places) number ↔ IsUsedAt plan places number }
{}
