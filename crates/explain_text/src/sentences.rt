//! The sentence of each difference.

ghost use Rattle.std.specs.Prelude.{◌≡◌, ◌<◌, if◌then◌else◌, IsTrue, IfOk, length};
ghost use Rattle.std.specs.String.{string_bytes};
ghost use Rattle.model_kit.specs.declared.vocabulary.Vocabulary.{Vocabulary as AnyVocabulary};
ghost use Rattle.model_kit.specs.Vocabulary.{is_object_of, fits_signature, is_ground_atom};
ghost use Rattle.model_kit.specs.Vocabulary.{IsSchemaAtom};
ghost use Rattle.model_kit.specs.Features.{IsCost};
ghost use Rattle.model_kit.specs.Places as place;
ghost use Rattle.model_kit.specs.Places.{Price, Worth};
ghost use Rattle.model_kit.specs.Sentences.{sentence, content_form, of_action};
ghost use Rattle.feature_diff.specs.Differing.{FitsWords};
ghost use Rattle.explain_text.specs.Lines.{sentence_of, feature_sentence};

use feature_diff::Difference;
use model_kit::{
    CostExpr, GroundAtom, SchemaAtom, Vocabulary, print_atom, print_cost, print_schema_atom,
    print_value,
};
use mre_base::{List, NoMemory, Text};
use std::alloc::Global;

/// The sentence of a difference, as `action jump needs (r)`.
pub(crate) fn sentence_text(
    alloc: Global,
    words: &Vocabulary,
    difference: &Difference,
) -> Result<Text, NoMemory>
    requires { FitsWords words.now difference.now }
    ensures ok { IfOk result (λ text. text ≡ sentence_of words.now difference.now) }
{
    match difference {
        Difference::Init { atom, planner_has } => of_start(alloc, words, atom, *planner_has),
        Difference::Goal { atom, planner_has } => of_goal(alloc, words, atom, *planner_has),
        Difference::Knows {
            action,
            planner_has,
        } => { of_knowledge(alloc, words, *action, *planner_has) }
        Difference::Pre {
            action,
            atom,
            planner_has,
        } => { of_need(alloc, words, *action, atom, *planner_has) }
        Difference::Add {
            action,
            atom,
            planner_has,
        } => { of_add(alloc, words, *action, atom, *planner_has) }
        Difference::Del {
            action,
            atom,
            planner_has,
        } => { of_delete(alloc, words, *action, atom, *planner_has) }
        Difference::Cost {
            action,
            planner,
            user,
        } => { of_cost(alloc, words, *action, planner, user) }
        Difference::Value {
            function,
            objects,
            planner,
            user,
        } => { of_value(alloc, words, *function, objects, *planner, *user) }
    }
}

// `initially A is true`, or that it is not.
fn of_start(
    alloc: Global,
    words: &Vocabulary,
    atom: &GroundAtom,
    planner_has: bool,
) -> Result<Text, NoMemory>
    requires { IsTrue (is_ground_atom words.now atom.now) }
    ensures ok { IfOk result (λ text. text
        ≡ feature_sentence words.now planner_has (place.Init atom.now)) }
{
    let form = print_atom(alloc, words, atom)?;
    let truth = either(planner_has, "is true", "is not true");
    let text = format!(in alloc; "initially {} {truth}", form.as_str())?;
    Text::of(alloc, text.as_str())
}

// `the goal has A`, or that it does not.
fn of_goal(
    alloc: Global,
    words: &Vocabulary,
    atom: &GroundAtom,
    planner_has: bool,
) -> Result<Text, NoMemory>
    requires { IsTrue (is_ground_atom words.now atom.now) }
    ensures ok { IfOk result (λ text. text
        ≡ feature_sentence words.now planner_has (place.Goal atom.now)) }
{
    let form = print_atom(alloc, words, atom)?;
    let has = either(planner_has, "has", "does not have");
    let text = format!(in alloc; "the goal {has} {}", form.as_str())?;
    Text::of(alloc, text.as_str())
}

// `action N exists`, or that it does not.
fn of_knowledge(
    alloc: Global,
    words: &Vocabulary,
    action: u32,
    planner_has: bool,
) -> Result<Text, NoMemory>
    requires { action < length words.now.actions }
    ensures ok { IfOk result (λ text. text
        ≡ feature_sentence words.now planner_has (place.Knows action)) }
{
    let exists = either(planner_has, "exists", "does not exist");
    said_of_action(alloc, words, action, exists)
}

// `action N needs A`, or that it does not.
fn of_need(
    alloc: Global,
    words: &Vocabulary,
    action: u32,
    atom: &SchemaAtom,
    planner_has: bool,
) -> Result<Text, NoMemory>
    requires action { action < length words.now.actions }
    requires atom { IsSchemaAtom words.now atom.now }
    ensures ok { IfOk result (λ text. text
        ≡ feature_sentence words.now planner_has (place.Pre action atom.now)) }
{
    let form = print_schema_atom(alloc, words, atom)?;
    let needs = either(planner_has, "needs", "does not need");
    let said = format!(in alloc; "{needs} {}", form.as_str())?;
    said_of_action(alloc, words, action, said.as_str())
}

// `action N makes A true`, or that it does not.
fn of_add(
    alloc: Global,
    words: &Vocabulary,
    action: u32,
    atom: &SchemaAtom,
    planner_has: bool,
) -> Result<Text, NoMemory>
    requires action { action < length words.now.actions }
    requires atom { IsSchemaAtom words.now atom.now }
    ensures ok { IfOk result (λ text. text
        ≡ feature_sentence words.now planner_has (place.Add action atom.now)) }
{
    let form = print_schema_atom(alloc, words, atom)?;
    let makes = either(planner_has, "makes", "does not make");
    let said = format!(in alloc; "{makes} {} true", form.as_str())?;
    said_of_action(alloc, words, action, said.as_str())
}

// `action N makes A false`, or that it does not.
fn of_delete(
    alloc: Global,
    words: &Vocabulary,
    action: u32,
    atom: &SchemaAtom,
    planner_has: bool,
) -> Result<Text, NoMemory>
    requires action { action < length words.now.actions }
    requires atom { IsSchemaAtom words.now atom.now }
    ensures ok { IfOk result (λ text. text
        ≡ feature_sentence words.now planner_has (place.Del action atom.now)) }
{
    let form = print_schema_atom(alloc, words, atom)?;
    let makes = either(planner_has, "makes", "does not make");
    let said = format!(in alloc; "{makes} {} false", form.as_str())?;
    said_of_action(alloc, words, action, said.as_str())
}

// `action N costs C, not U`, with the planner's cost first.
fn of_cost(
    alloc: Global,
    words: &Vocabulary,
    action: u32,
    planner: &CostExpr,
    user: &CostExpr,
) -> Result<Text, NoMemory>
    requires action { action < length words.now.actions }
    requires planner { IsCost words.now planner.now }
    requires user { IsCost words.now user.now }
    ensures ok { IfOk result (λ text. text
        ≡ sentence words.now (Price planner.now) (Price user.now) (place.Cost action)) }
{
    let planner_cost = print_cost(alloc, words, planner)?;
    let user_cost = print_cost(alloc, words, user)?;
    let said = format!(in alloc;
        "costs {}, not {}",
        planner_cost.as_str(),
        user_cost.as_str()
    )?;
    said_of_action(alloc, words, action, said.as_str())
}

// `the value of T is C, not U`, with the planner's value first.
fn of_value(
    alloc: Global,
    words: &Vocabulary,
    function: u32,
    objects: &List<u32>,
    planner: Option<u32>,
    user: Option<u32>,
) -> Result<Text, NoMemory>
    requires { IsTrue (fits_signature (is_object_of words.now) words.now.functions function
        objects.now) }
    ensures ok { IfOk result (λ text. text
        ≡ sentence words.now (Worth planner) (Worth user) (place.Value function objects.now)) }
{
    let term = print_value(alloc, words, function, objects)?;
    let planner_value = value_text(alloc, planner)?;
    let user_value = value_text(alloc, user)?;
    let text = format!(in alloc;
        "the value of {} is {}, not {}",
        term.as_str(),
        planner_value.as_str(),
        user_value.as_str()
    )?;
    Text::of(alloc, text.as_str())
}

// A value, or `none` where it is absent.
fn value_text(alloc: Global, value: Option<u32>) -> Result<String, NoMemory>
    ensures ok { IfOk result (λ text. (words : AnyVocabulary) → string_bytes text
        ≡ content_form words (Worth value)) }
{
    let text = match value {
        Some(number) => format!(in alloc; "{number}")?,
        None => String::from_str(alloc, "none")?,
    };
    Ok(text)
}

// `action N` and what is said of it.
fn said_of_action(
    alloc: Global,
    words: &Vocabulary,
    action: u32,
    said: &str,
) -> Result<Text, NoMemory>
    requires { action < length words.now.actions }
    ensures ok { IfOk result (λ text. text ≡ of_action words.now action said.now) }
{
    let name = &words.actions.item(action as usize).name;
    let text = format!(in alloc; "action {} {said}", name.as_str())?;
    Text::of(alloc, text.as_str())
}

// One of two words.
fn either(is_first: bool, first: &'static str, second: &'static str) -> &'static str
    ensures { result.now ≡ (if is_first then first.now else second.now) }
{
    if is_first { first } else { second }
}
