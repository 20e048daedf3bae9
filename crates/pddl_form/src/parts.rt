//! The parts of the grammars, and the words of a text with the parts that took them.
use mre_base::Text;
use pddl_text::Place;

/// What a typed list of names lists.
#[derive(Clone, Copy, Debug)]
pub enum Listing {
    Types,
    Constants,
    Objects,
}

/// Whose parameters a typed list of variables declares.
#[derive(Clone, Copy, Debug)]
pub enum Owner {
    Predicate,
    Function,
    Action,
}

/// The sections of a domain that have occurred, of those that may occur only once.
#[derive(Clone, Copy, Debug)]
pub struct SectionsSeen {
    pub requirements: bool,
    pub types: bool,
    pub constants: bool,
    pub predicates: bool,
    pub functions: bool,
}

/// The keys of an action that have occurred.
#[derive(Clone, Copy, Debug)]
pub struct KeysSeen {
    pub parameters: bool,
    pub precondition: bool,
    pub effect: bool,
}

/// The sections of a problem that have occurred.
#[derive(Clone, Copy, Debug)]
pub struct StatementsSeen {
    pub requirements: bool,
    pub objects: bool,
    pub init: bool,
    pub goal: bool,
    pub metric: bool,
}

/// A part of the grammar that is due. A part that isn't shown with a `(` begins inside its list and
/// goes up to the list's `)`, or is the one word that its name says.
#[derive(Clone, Copy, Debug)]
pub enum Part {
    /// `(define (domain NAME) SECTION*)`
    Domain,
    DomainDefine,
    /// `(domain NAME)`
    DomainHead,
    DomainWord,
    DomainName,
    /// The `)` of a list.
    Close,
    /// The sections of a domain, and the domain's `)`.
    Sections { seen: SectionsSeen },
    Section { seen: SectionsSeen },
    /// The words of requirements.
    Words,
    /// Groups of a typed list of names.
    Names { listing: Listing },
    /// The same after a name of a group.
    NamesMore { listing: Listing },
    /// The type after the dash of a group of names.
    NameType { listing: Listing },
    Predicates,
    PredicateName,
    /// Groups of a typed list of variables.
    Variables { owner: Owner },
    /// The same after a variable of a group.
    VariablesMore { owner: Owner },
    /// The type after the dash of a group of variables.
    VariableType { owner: Owner },
    Functions,
    FunctionName,
    /// What follows a function's list: `- number`, a further function, or the end.
    FunctionTail,
    FunctionType,
    ActionName,
    Keys { seen: KeysSeen },
    /// `(VARIABLES)`
    ParameterList,
    /// A precondition: `()`, `(and COND*)` or `(NAME TERM*)`.
    Condition,
    ConditionHead,
    Conditions,
    /// Names and variables after the head of an atom or a cost.
    Terms,
    /// An effect: `()`, `(and EFF*)`, an atom, `(not ATOM)` or `(increase (total-cost) COST)`.
    Effect,
    EffectHead,
    Effects,
    /// The atom of `(not ATOM)`, and the `)` after it.
    Negated,
    NegatedHead,
    /// `(total-cost)`
    Total,
    TotalWord,
    /// A number or `(NAME TERM*)`, and the `)` of the increase.
    Cost,
    CostHead,
    /// `(define (problem NAME) (:domain NAME) SECTION*)`
    Problem,
    ProblemDefine,
    /// `(problem NAME)`
    ProblemHead,
    ProblemWord,
    ProblemName,
    /// `(:domain NAME)`, and the sections after it.
    OfDomain,
    OfDomainWord,
    OfDomainName,
    /// The sections of a problem, and the problem's `)`.
    Statements { seen: StatementsSeen },
    Statement { seen: StatementsSeen },
    /// The items of `:init`.
    Facts,
    FactHead,
    /// `(total-cost)` or `(NAME NAME*)` after a `=`.
    Valued,
    ValuedHead,
    /// A number, and the `)` after it.
    Number,
    /// The condition of `:goal`, and the section's `)`.
    Goal,
    GoalHead,
    Goals,
    /// Names after the head of an atom or a value of a problem.
    Objects,
    /// `minimize (total-cost)`, and the `)` of the section.
    Metric,
}

/// A word of a text with the part that took it, which says what the word does there.
#[derive(Debug, Drop)]
pub struct Met {
    pub part: Part,
    pub text: Text,
    pub at: Place,
}
