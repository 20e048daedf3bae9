//! The sorts of words that the grammars distinguish.
/// What a word is to the grammar: one of the grammar's own words, or what its bytes make it.
#[derive(Clone, Copy, Debug)]
pub enum Sort {
    /// `and`
    And,
    /// `or`
    Or,
    /// `not`
    Not,
    /// `imply`
    Imply,
    /// `forall`
    Forall,
    /// `exists`
    Exists,
    /// `when`
    When,
    /// `increase`
    Increase,
    /// `decrease`
    Decrease,
    /// `assign`
    Assign,
    /// `scale-up`
    ScaleUp,
    /// `scale-down`
    ScaleDown,
    /// `preference`
    Preference,
    /// `=`
    Equal,
    /// `<`
    Less,
    /// `>`
    Greater,
    /// `<=`
    AtMost,
    /// `>=`
    AtLeast,
    /// `-`
    Dash,
    /// `either`
    Either,
    /// `define`
    Define,
    /// `domain`
    Domain,
    /// `problem`
    Problem,
    /// `minimize`
    Minimize,
    /// `total-cost`
    TotalCost,
    /// `number`
    NumberType,
    /// `:requirements`
    Requirements,
    /// `:types`
    Types,
    /// `:constants`
    Constants,
    /// `:predicates`
    Predicates,
    /// `:functions`
    Functions,
    /// `:action`
    Action,
    /// `:parameters`
    Parameters,
    /// `:precondition`
    Precondition,
    /// `:effect`
    Effect,
    /// `:domain`
    OfDomain,
    /// `:objects`
    Objects,
    /// `:init`
    Init,
    /// `:goal`
    Goal,
    /// `:metric`
    Metric,
    /// `:durative-action`
    DurativeAction,
    /// `:derived`
    Derived,
    /// `:axiom`
    Axiom,
    /// `:process`
    Process,
    /// `:event`
    Event,
    /// `:constraints`
    Constraints,
    /// `:length`
    Length,
    /// A whole number from 0 to 4294967295, perhaps with a point and any zeros after it.
    Numeral,
    /// Another word whose first byte is a letter, a digit or `_`.
    Name,
    /// A `?` followed by at least one byte.
    Variable,
    /// Any other word.
    Other,
}
