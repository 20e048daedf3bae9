//! The lines of a domain, a model or a plan.
use crate::forms::{entry_name, put_atoms, put_cost, put_objects, put_signature};
use model_kit::{GroundAtom, Model, Plan, Signature, Vocabulary};
use mre_base::{List, NoMemory, Text};
use pddl_models::{Body, Domain};
use std::alloc::Global;

fn put_entries(
    text: &mut String,
    head: &str,
    entries: &List<(Text, u32)>,
    types: &List<(Text, u32)>,
) -> Result<(), NoMemory> {
    for place in 0..entries.len() {
        let (name, number) = entries.item(place);
        let above = entry_name(types, *number);
        write!(text, "{head} {} - {above}\n", name.as_str())?;
    }
    Ok(())
}

fn put_signatures(
    text: &mut String,
    head: &str,
    signatures: &List<Signature>,
    types: &List<(Text, u32)>,
) -> Result<(), NoMemory> {
    for place in 0..signatures.len() {
        write!(text, "{head} ")?;
        put_signature(text, types, signatures.item(place))?;
        write!(text, "\n")?;
    }
    Ok(())
}

// The types, objects, predicates and functions.
fn put_words(text: &mut String, words: &Vocabulary) -> Result<(), NoMemory> {
    put_entries(text, "type", &words.types, &words.types)?;
    put_entries(text, "object", &words.objects, &words.types)?;
    put_signatures(text, "predicate", &words.predicates, &words.types)?;
    put_signatures(text, "function", &words.functions, &words.types)
}

// An action's name, with its parameters' types.
fn put_action(text: &mut String, words: &Vocabulary, place: usize) -> Result<(), NoMemory> {
    if place < words.actions.len() {
        write!(text, "action ")?;
        put_signature(text, &words.types, words.actions.item(place))?;
        write!(text, "\n")?;
    }
    Ok(())
}

fn put_body(text: &mut String, words: &Vocabulary, body: &Body) -> Result<(), NoMemory> {
    put_atoms(text, words, "needs", &body.pre)?;
    put_atoms(text, words, "adds", &body.add)?;
    put_atoms(text, words, "deletes", &body.del)?;
    if let Some(cost) = &body.increase {
        write!(text, "  increases by ")?;
        put_cost(text, words, cost)?;
        write!(text, "\n")?;
    }
    Ok(())
}

/// The lines of a domain.
pub fn domain_text(alloc: Global, domain: &Domain) -> Result<String, NoMemory> {
    let mut text = String::new(alloc);
    put_words(&mut text, &domain.words)?;
    for place in 0..domain.bodies.len() {
        put_action(&mut text, &domain.words, place)?;
        put_body(&mut text, &domain.words, domain.bodies.item(place))?;
    }
    Ok(text)
}

fn put_facts(
    text: &mut String,
    words: &Vocabulary,
    head: &str,
    facts: &List<GroundAtom>,
) -> Result<(), NoMemory> {
    for place in 0..facts.len() {
        let fact = facts.item(place);
        write!(text, "{head} ")?;
        put_objects(
            text,
            words,
            &words.predicates,
            fact.predicate,
            &fact.objects,
        )?;
        write!(text, "\n")?;
    }
    Ok(())
}

fn is_unknown(model: &Model, action: usize) -> bool {
    model
        .unknown
        .as_slice()
        .iter()
        .any(|&number| number as usize == action)
}

// The actions, with what they need, add, delete and cost.
fn put_schemas(text: &mut String, model: &Model) -> Result<(), NoMemory> {
    for place in 0..model.schemas.len() {
        let schema = model.schemas.item(place);
        put_action(text, &model.words, place)?;
        put_atoms(text, &model.words, "needs", &schema.pre)?;
        put_atoms(text, &model.words, "adds", &schema.add)?;
        put_atoms(text, &model.words, "deletes", &schema.del)?;
        write!(text, "  costs ")?;
        put_cost(text, &model.words, &schema.cost)?;
        write!(text, "\n")?;
        if is_unknown(model, place) {
            write!(text, "  is not known\n")?;
        }
    }
    Ok(())
}

fn put_values(text: &mut String, model: &Model) -> Result<(), NoMemory> {
    for place in 0..model.values.len() {
        let (function, objects, number) = model.values.item(place);
        write!(text, "value ")?;
        put_objects(
            text,
            &model.words,
            &model.words.functions,
            *function,
            objects,
        )?;
        write!(text, " {number}\n")?;
    }
    Ok(())
}

/// The lines of the model of a problem.
pub fn model_text(alloc: Global, model: &Model) -> Result<String, NoMemory> {
    let mut text = String::new(alloc);
    put_words(&mut text, &model.words)?;
    put_schemas(&mut text, model)?;
    put_facts(&mut text, &model.words, "initially", &model.init)?;
    put_facts(&mut text, &model.words, "goal", &model.goal)?;
    put_values(&mut text, model)?;
    Ok(text)
}

/// The lines of a plan, one for each step.
pub fn plan_text(alloc: Global, words: &Vocabulary, plan: &Plan) -> Result<String, NoMemory> {
    let mut text = String::new(alloc);
    for place in 0..plan.steps.len() {
        let step = plan.steps.item(place);
        put_objects(&mut text, words, &words.actions, step.schema, &step.objects)?;
        write!(text, "\n")?;
    }
    Ok(text)
}
