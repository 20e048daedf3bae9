//! The groups of entries in which vocabularies are compared.

ghost use Rattle.std.specs.Prelude.{◌≡◌};
ghost use Rattle.joint_models.specs.Disagreements.{is_shared, word_of, opening, closing};

/// What a vocabulary lists: in each group entries with names, each with the numbers of types.
#[derive(Clone, Copy)]
pub(crate) enum Group {
    Types,
    Objects,
    Actions,
    Predicates,
    Functions,
}

impl Group {
    /// Whether two models that agree have the same names in the group.
    pub(crate) fn is_shared(self) -> bool
        ensures { result ≡ is_shared self }
    {
        match self {
            Group::Types | Group::Objects => true,
            Group::Actions | Group::Predicates | Group::Functions => false,
        }
    }

    /// The word before a name of the group.
    pub(crate) fn word(self) -> &'static str
        ensures { result.now ≡ word_of self }
    {
        match self {
            Group::Types => "type ",
            Group::Objects => "object ",
            Group::Actions => "action ",
            Group::Predicates => "predicate ",
            Group::Functions => "function ",
        }
    }

    /// What is printed between a name and its types.
    pub(crate) fn opening(self) -> &'static str
        ensures { result.now ≡ opening self }
    {
        if self.is_shared() { " - " } else { " (" }
    }

    /// What is printed after the types.
    pub(crate) fn closing(self) -> &'static str
        ensures { result.now ≡ closing self }
    {
        if self.is_shared() { "" } else { ")" }
    }
}
