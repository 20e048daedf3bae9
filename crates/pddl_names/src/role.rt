//! What a word does in a domain or a problem, by the part of the grammar that it met.

ghost use Rattle.std.specs.Prelude.{◌≡◌};
ghost use Rattle.pddl_names.specs.Params.{is_action_name, is_param};
ghost use Rattle.pddl_names.specs.Roles.{listed, typed, problem_role, role_at};

use mre_base::Text;
use pddl_form::{Listing, Owner, Part, Sort};
use pddl_text::Place;

/// What an atom says: that an action needs, adds or deletes it, that it is true at the start, or that
/// it is a goal.
#[derive(Clone, Copy, Debug)]
pub enum Says {
    Needed,
    Added,
    Deleted,
    Initial,
    Goal,
}

/// What a word of a domain or a problem does there.
#[derive(Clone, Copy, Debug)]
pub enum Role {
    /// A type that is listed.
    ListedType,
    /// The parent of the types listed before it.
    ParentType,
    /// A constant or an object that is listed.
    ListedObject,
    /// The type of the constants or objects listed before it.
    ObjectType,
    /// The name of a predicate that is declared.
    Predicate,
    /// The name of a function that is declared.
    Function,
    /// The name of an action.
    Action,
    /// A parameter.
    Variable { owner: Owner },
    /// The type of the parameters before it.
    VariableType,
    /// The dash before the type of a group.
    Dash,
    /// The predicate of an atom.
    Head { says: Says },
    /// The function of a cost.
    Cost,
    /// The function of a value.
    Value,
    /// A term or an object after a head.
    Term,
    /// The head of an increase.
    Increase,
    /// A number.
    Numeral,
    /// The word `minimize` of the metric.
    Metric,
    /// A word that is only form.
    Other,
}

/// A word of a domain or a problem.
#[derive(Debug)]
pub struct Word {
    pub role: Role,
    pub text: Text,
    pub at: Place,
}

impl Drop for Word {
    fn drop(self) {
        let Word {
            role: _,
            text: _,
            at: _,
        } = self;
    }
}

// What is listed.
fn listed(listing: Listing) -> Role
    ensures { result ≡ listed listing }
{
    match listing {
        Listing::Types => Role::ListedType,
        Listing::Constants => Role::ListedObject,
        Listing::Objects => Role::ListedObject,
    }
}

// The type of what is listed.
fn typed(listing: Listing) -> Role
    ensures { result ≡ typed listing }
{
    match listing {
        Listing::Types => Role::ParentType,
        Listing::Constants => Role::ObjectType,
        Listing::Objects => Role::ObjectType,
    }
}

// The role of a word where a part of a problem was due.
fn problem_role(part: Part, sort: Sort) -> Role
    ensures { result ≡ problem_role part sort }
{
    match (part, sort) {
        (Part::FactHead, Sort::Equal) => Role::Other,
        (Part::FactHead, _) => Role::Head {
            says: Says::Initial,
        },
        (Part::ValuedHead, Sort::TotalCost) => Role::Other,
        (Part::ValuedHead, _) => Role::Value,
        (Part::Number, _) => Role::Numeral,
        (Part::GoalHead, Sort::And) => Role::Other,
        (Part::GoalHead, _) => Role::Head { says: Says::Goal },
        (Part::Objects, _) => Role::Term,
        (Part::Metric, _) => Role::Metric,
        _ => Role::Other,
    }
}

/// The role of a word of this sort where this part was due.
pub fn role_at(part: Part, sort: Sort) -> Role
    ensures { result ≡ role_at part sort }
{
    match (part, sort) {
        (Part::Names { listing }, _) => listed(listing),
        (Part::NamesMore { .. }, Sort::Dash) => Role::Dash,
        (Part::NamesMore { listing }, _) => listed(listing),
        (Part::NameType { listing }, _) => typed(listing),
        (Part::PredicateName, _) => Role::Predicate,
        (Part::FunctionName, _) => Role::Function,
        (Part::ActionName, _) => Role::Action,
        (Part::Variables { owner }, _) => Role::Variable { owner },
        (Part::VariablesMore { .. }, Sort::Dash) => Role::Dash,
        (Part::VariablesMore { owner }, _) => Role::Variable { owner },
        (Part::VariableType { .. }, _) => Role::VariableType,
        (Part::ConditionHead, Sort::And) => Role::Other,
        (Part::ConditionHead, _) => Role::Head { says: Says::Needed },
        (Part::Terms, _) => Role::Term,
        (Part::EffectHead, Sort::And) => Role::Other,
        (Part::EffectHead, Sort::Not) => Role::Other,
        (Part::EffectHead, Sort::Increase) => Role::Increase,
        (Part::EffectHead, _) => Role::Head { says: Says::Added },
        (Part::NegatedHead, _) => Role::Head {
            says: Says::Deleted,
        },
        (Part::Cost, _) => Role::Numeral,
        (Part::CostHead, _) => Role::Cost,
        _ => problem_role(part, sort),
    }
}

/// Whether a word of this role is the name of an action.
pub fn is_action(role: Role) -> bool
    ensures { result ≡ is_action_name role }
{
    matches!(role, Role::Action)
}

/// Whether a word of this role is a parameter of an action.
pub fn is_param(role: Role) -> bool
    ensures { result ≡ is_param role }
{
    match role {
        Role::Variable { owner } => matches!(owner, Owner::Action),
        _ => false,
    }
}
