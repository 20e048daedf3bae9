//! The sort of a word, from its text.
ghost use Rattle.std.specs.Prelude.{◌≡◌};
ghost use Rattle.std.specs.Str.{bytes_eq};
ghost use Rattle.pddl_form.specs.Words.{meaning, joining, changing, comparing, naming};
ghost use Rattle.pddl_form.specs.Words.{dividing_domains, dividing_problems, dividing_others};
ghost use Rattle.pddl_form.specs.Words.{is_name, is_variable, shape, sort};

use crate::numbers::number_of;
use crate::sort::Sort;

fn same(one: &[u8], two: &[u8]) -> bool
    ensures { result ≡ bytes_eq one.now two.now }
{
    one == two
}

// One of the words that join conditions and effects.
fn joining(text: &[u8]) -> Option<Sort>
    ensures { result ≡ meaning joining text.now }
{
    if same(text, b"and") {
        Some(Sort::And)
    } else if same(text, b"or") {
        Some(Sort::Or)
    } else if same(text, b"not") {
        Some(Sort::Not)
    } else if same(text, b"imply") {
        Some(Sort::Imply)
    } else if same(text, b"forall") {
        Some(Sort::Forall)
    } else if same(text, b"exists") {
        Some(Sort::Exists)
    } else if same(text, b"when") {
        Some(Sort::When)
    } else {
        None
    }
}

// One of the words that change a number, and the one that begins a preference.
fn changing(text: &[u8]) -> Option<Sort>
    ensures { result ≡ meaning changing text.now }
{
    if same(text, b"increase") {
        Some(Sort::Increase)
    } else if same(text, b"decrease") {
        Some(Sort::Decrease)
    } else if same(text, b"assign") {
        Some(Sort::Assign)
    } else if same(text, b"scale-up") {
        Some(Sort::ScaleUp)
    } else if same(text, b"scale-down") {
        Some(Sort::ScaleDown)
    } else if same(text, b"preference") {
        Some(Sort::Preference)
    } else {
        None
    }
}

// One of the words that compare, the dash before a type, and the word before several types.
fn comparing(text: &[u8]) -> Option<Sort>
    ensures { result ≡ meaning comparing text.now }
{
    if same(text, b"=") {
        Some(Sort::Equal)
    } else if same(text, b"<") {
        Some(Sort::Less)
    } else if same(text, b">") {
        Some(Sort::Greater)
    } else if same(text, b"<=") {
        Some(Sort::AtMost)
    } else if same(text, b">=") {
        Some(Sort::AtLeast)
    } else if same(text, b"-") {
        Some(Sort::Dash)
    } else if same(text, b"either") {
        Some(Sort::Either)
    } else {
        None
    }
}

// One of the words of a definition, of the metric, and of costs.
fn naming(text: &[u8]) -> Option<Sort>
    ensures { result ≡ meaning naming text.now }
{
    if same(text, b"define") {
        Some(Sort::Define)
    } else if same(text, b"domain") {
        Some(Sort::Domain)
    } else if same(text, b"problem") {
        Some(Sort::Problem)
    } else if same(text, b"minimize") {
        Some(Sort::Minimize)
    } else if same(text, b"total-cost") {
        Some(Sort::TotalCost)
    } else if same(text, b"number") {
        Some(Sort::NumberType)
    } else {
        None
    }
}

// One of the words that begin a section of a domain or a key of an action.
fn dividing_domains(text: &[u8]) -> Option<Sort>
    ensures { result ≡ meaning dividing_domains text.now }
{
    if same(text, b":requirements") {
        Some(Sort::Requirements)
    } else if same(text, b":types") {
        Some(Sort::Types)
    } else if same(text, b":constants") {
        Some(Sort::Constants)
    } else if same(text, b":predicates") {
        Some(Sort::Predicates)
    } else if same(text, b":functions") {
        Some(Sort::Functions)
    } else if same(text, b":action") {
        Some(Sort::Action)
    } else if same(text, b":parameters") {
        Some(Sort::Parameters)
    } else if same(text, b":precondition") {
        Some(Sort::Precondition)
    } else if same(text, b":effect") {
        Some(Sort::Effect)
    } else {
        None
    }
}

// One of the words that begin a section of a problem.
fn dividing_problems(text: &[u8]) -> Option<Sort>
    ensures { result ≡ meaning dividing_problems text.now }
{
    if same(text, b":domain") {
        Some(Sort::OfDomain)
    } else if same(text, b":objects") {
        Some(Sort::Objects)
    } else if same(text, b":init") {
        Some(Sort::Init)
    } else if same(text, b":goal") {
        Some(Sort::Goal)
    } else if same(text, b":metric") {
        Some(Sort::Metric)
    } else {
        None
    }
}

// One of the words that begin a section out of scope.
fn dividing_others(text: &[u8]) -> Option<Sort>
    ensures { result ≡ meaning dividing_others text.now }
{
    if same(text, b":durative-action") {
        Some(Sort::DurativeAction)
    } else if same(text, b":derived") {
        Some(Sort::Derived)
    } else if same(text, b":axiom") {
        Some(Sort::Axiom)
    } else if same(text, b":process") {
        Some(Sort::Process)
    } else if same(text, b":event") {
        Some(Sort::Event)
    } else if same(text, b":constraints") {
        Some(Sort::Constraints)
    } else if same(text, b":length") {
        Some(Sort::Length)
    } else {
        None
    }
}

/// Whether the first byte is a letter, a digit or `_`.
fn is_name(text: &[u8]) -> bool
    ensures { result ≡ is_name text.now }
{
    match text {
        [] => false,
        [first, ..] => first.is_ascii_alphanumeric() || *first == b'_',
    }
}

/// Whether there are at least two bytes, the first a `?`.
fn is_variable(text: &[u8]) -> bool
    ensures { result ≡ is_variable text.now }
{
    match text {
        [] => false,
        [_] => false,
        [first, _, ..] => *first == b'?',
    }
}

// What a word is by its bytes.
fn shape_of(text: &[u8]) -> Sort
    ensures { result ≡ shape text.now }
{
    if number_of(text).is_some() {
        Sort::Numeral
    } else if is_name(text) {
        Sort::Name
    } else if is_variable(text) {
        Sort::Variable
    } else {
        Sort::Other
    }
}

/// What a word with this text is, in lower case.
pub fn sort_of(text: &[u8]) -> Sort
    ensures { result ≡ sort text.now }
{
    if let Some(sort) = joining(text) {
        return sort;
    }
    if let Some(sort) = changing(text) {
        return sort;
    }
    if let Some(sort) = comparing(text) {
        return sort;
    }
    if let Some(sort) = naming(text) {
        return sort;
    }
    if let Some(sort) = dividing_domains(text) {
        return sort;
    }
    if let Some(sort) = dividing_problems(text) {
        return sort;
    }
    if let Some(sort) = dividing_others(text) {
        return sort;
    }
    shape_of(text)
}
