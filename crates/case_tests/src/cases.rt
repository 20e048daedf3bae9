//! Cases and costs for tests.

ghost use Rattle.std.specs.Prelude.{IsTrue};
ghost use Rattle.case_kit.specs.Sound.{is_apart};

use case_kit::{Case, CaseCost, CaseValue, When};

pub fn always(atom: u32) -> Case {
    Case {
        atom,
        when: When::Always,
    }
}

pub fn told(atom: u32, place: u32) -> Case {
    Case {
        atom,
        when: When::IfTold(place),
    }
}

pub fn left(atom: u32, place: u32) -> Case {
    Case {
        atom,
        when: When::IfLeft(place),
    }
}

pub fn number(cost: u32) -> CaseCost
    ensures { IsTrue (is_apart result) }
{
    CaseCost::One(CaseValue::One(Some(cost)))
}
