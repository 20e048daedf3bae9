//! Costs that depend on the told differences.

ghost use Rattle.std.specs.Prelude.{◌≡◌, ◌↔◌, IsTrue, IsSome};
ghost use Rattle.cube_kit.specs.Cubes.{Told};
ghost use Rattle.case_kit.specs.declared.cases.When.{When};
ghost use Rattle.case_kit.specs.Parts.{has_value, has_cost, stands_in_value, stands_in_cost};
ghost use Rattle.case_kit.specs.Sound.{is_apart, is_beside};

/// A number that may be absent: the same in both models, or chosen by a difference.
#[derive(Clone, Copy, Debug)]
pub enum CaseValue {
    One(Option<u32>),
    /// The number if the difference at `place` is told, and the number if it is left.
    Two {
        place: u32,
        told: Option<u32>,
        left: Option<u32>,
    },
}

/// The cost of a ground action: the same value in both models, or one of two values, chosen by a
/// difference.
#[derive(Clone, Copy, Debug)]
pub enum CaseCost {
    One(CaseValue),
    /// The value if the difference at `place` is told, and the value if it is left.
    Two {
        place: u32,
        told: CaseValue,
        left: CaseValue,
    },
}

impl CaseValue {
    fn has_number(self) -> bool
        ensures { result ≡ has_value self }
    {
        match self {
            CaseValue::One(value) => value.is_some(),
            CaseValue::Two { told, left, .. } => told.is_some() || left.is_some(),
        }
    }

    fn speaks_of(self, number: u32) -> bool
        ensures { result ≡ stands_in_value self number }
    {
        match self {
            CaseValue::One(_) => false,
            CaseValue::Two { place, .. } => place == number,
        }
    }
}

impl CaseCost {
    ghost use Rattle.case_kit.specs.Members.{cost_if_known};

    /// Whether the cost has a number. Exactly then the action has a cost after some set of
    /// differences, whatever the condition under which it is known.
    pub fn has_number(self) -> bool
        requires { IsTrue (is_apart self) }
        ensures { (known : When) → IsTrue (is_beside self known) →
            IsTrue result ↔ ((told : Told) × IsSome (cost_if_known told known self)) }
    {
        self.is_somewhere()
    }

    fn is_somewhere(self) -> bool
        ensures { result ≡ has_cost self }
    {
        match self {
            CaseCost::One(value) => value.has_number(),
            CaseCost::Two { told, left, .. } => told.has_number() || left.has_number(),
        }
    }

    /// Whether the difference has a part in the cost.
    pub fn speaks_of(self, number: u32) -> bool
        ensures { result ≡ stands_in_cost self number }
    {
        match self {
            CaseCost::One(value) => value.speaks_of(number),
            CaseCost::Two { place, told, left } => {
                place == number || told.speaks_of(number) || left.speaks_of(number)
            }
        }
    }
}
