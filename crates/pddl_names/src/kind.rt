//! The kinds of things that are declared by names.

ghost use Rattle.std.specs.Prelude.{◌≡◌};
ghost use Rattle.pddl_names.specs.Kinds.{is_kind};

use crate::role::Role;

/// A sort of things that are declared by names, each name once.
#[derive(Clone, Copy)]
pub enum Kind {
    Types,
    Objects,
    Predicates,
    Functions,
    Actions,
}

impl Kind {
    /// Whether a word of this role declares such a thing.
    pub fn has(self, role: Role) -> bool
        ensures { result ≡ is_kind self role }
    {
        match (self, role) {
            (Kind::Types, Role::ListedType) => true,
            (Kind::Objects, Role::ListedObject) => true,
            (Kind::Predicates, Role::Predicate) => true,
            (Kind::Functions, Role::Function) => true,
            (Kind::Actions, Role::Action) => true,
            _ => false,
        }
    }
}
