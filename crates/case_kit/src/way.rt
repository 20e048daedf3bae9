//! The two relaxed tasks of a cube.

ghost use Rattle.std.specs.Prelude.{◌≡◌};
ghost use Rattle.case_kit.specs.Evaluated.{opposite};

/// One of the two tasks of a cube: the task in which every list is valid that is valid in some
/// member, or the task whose valid lists are valid in every member.
#[derive(Clone, Copy, Debug)]
pub enum Way {
    Permissive,
    Restrictive,
}

impl Way {
    pub fn opposite(self) -> Way
        ensures { result ≡ opposite self }
    {
        match self {
            Way::Permissive => Way::Restrictive,
            Way::Restrictive => Way::Permissive,
        }
    }
}
