//! What the table puts in place of a part.
ghost use Rattle.std.specs.Prelude.{◌≡◌};
ghost use Rattle.pddl_form.specs.Rows.{only_if};
ghost use Rattle.pddl_form.specs.declared.next.Next.TheVariants as next;

use crate::parts::Part;

/// What is due in place of a part that took a token.
#[derive(Clone, Copy)]
pub enum Next {
    Nothing,
    One { part: Part },
    Two { first: Part, second: Part },
    /// The part doesn't take the token.
    Refused,
}

pub fn one(part: Part) -> Next
    ensures { result ≡ next.One part }
{
    Next::One { part }
}

pub fn two(first: Part, second: Part) -> Next
    ensures { result ≡ next.Two first second }
{
    Next::Two { first, second }
}

pub fn only_if(test: bool, next: Next) -> Next
    ensures { result ≡ only_if test next }
{
    if test { next } else { Next::Refused }
}
