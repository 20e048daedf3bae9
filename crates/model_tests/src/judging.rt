//! Tests of judgements.

ghost use Rattle.std.specs.Prelude.{◌^◌, IfOk};
ghost use Rattle.model_kit.specs.Judgement.{NamesAtoms};
ghost use Rattle.pddl_read.specs.Texts.{AreFew};

use crate::tables::{in_lines, model};
use model_kit::{Model, NamedJudgement, Plan, Vocabulary, judge_names, print_atom};
use pddl_read::read_plan;
use std::alloc::Global;
use std::process::Abort;
use std::test::Fail;

/// From a over b to c. Going costs what the road costs, and riding from a to c costs 10.
const ROADS: &str = "(define (domain roads) (:constants a b c)\n\
    (:predicates (link ?x ?y) (at ?x)) (:functions (total-cost) (road ?x ?y))\n\
    (:action go :parameters (?x ?y) :precondition (and (link ?x ?y) (at ?x))\n\
     :effect (and (at ?y) (not (at ?x)) (increase (total-cost) (road ?x ?y))))\n\
    (:action ride :precondition (at a) :effect (and (at c) (increase (total-cost) 10))))";

const TO_C: &str = "(define (problem c) (:domain roads)\n\
    (:init (at a) (link a b) (link b c) (= (road a b) 2) (= (road b c) 9))\n\
    (:goal (at c)) (:metric minimize (total-cost)))";

// What a judgement says.
fn said(alloc: Global, words: &Vocabulary, judgement: &NamedJudgement) -> Result<String, Fail>
    requires { NamesAtoms words.now judgement.now }
{
    match judgement {
        NamedJudgement::Valid { cost } => Ok(format!(in alloc; "valid {cost}")?),
        NamedJudgement::Fails { step, atom } => {
            let text = print_atom(alloc, words, atom)?;
            Ok(format!(in alloc; "step {step} needs {}", text.as_str())?)
        }
        NamedJudgement::NoCost { step } => Ok(format!(in alloc; "step {step} has no cost")?),
        NamedJudgement::GoalMissing { atom } => {
            let text = print_atom(alloc, words, atom)?;
            Ok(format!(in alloc; "ends without {}", text.as_str())?)
        }
    }
}

// What judging says of a plan's text.
fn judged(rt: &impl Abort, alloc: Global, model: &Model, text: &str) -> Result<String, Fail> {
    assert!(rt; model.words.objects.len() < 100);
    assert!(rt; model.words.actions.len() < 100);
    assert!(rt; text.len() < 1000);
    match read_plan(alloc, text.as_bytes(), &model.words) {
        Ok(plan) => said(alloc, &model.words, &judge_names(alloc, model, &plan)?),
        Err(_) => Err(Fail::from("no plan")),
    }
}

// Each row is a plan and what judging says of it.
fn assert_judged(rt: &impl Abort, alloc: Global, model: &Model, rows: &str) -> Result<(), Fail> {
    for row in rows.lines() {
        let (plan, wanted) = row.split_once(" => ").ok_or("no row")?;
        let text = in_lines(alloc, plan)?;
        let found = judged(rt, alloc, model, text.as_str())?;
        assert_eq!(rt; found.as_str(), wanted, "{plan}");
    }
    Ok(())
}

// The same for the model of a domain's text and a problem's text.
fn assert_judgements(
    rt: &impl Abort,
    alloc: Global,
    domain: &str,
    problem: &str,
    rows: &str,
) -> Result<(), Fail> {
    let model = model(rt, alloc, domain, problem)?;
    assert_judged(rt, alloc, &model, rows)
}

// Two ways to (g): walk costs 2, jump costs 1. Each has these conditions and effects.
fn assert_ways(
    rt: &impl Abort,
    alloc: Global,
    walk: &str,
    jump: &str,
    goal: &str,
    rows: &str,
) -> Result<(), Fail> {
    let domain = format!(in alloc;
        "(define (domain ways) (:predicates (p) (q) (g)) (:functions (total-cost))\n\
        (:action walk {walk})\n(:action jump {jump}))"
    )?;
    let problem = format!(in alloc;
        "(define (problem g) (:domain ways) (:init (p)) (:goal {goal}) \
        (:metric minimize (total-cost)))"
    )?;
    assert_judgements(rt, alloc, domain.as_str(), problem.as_str(), rows)
}

const WALK: &str = ":precondition (p) :effect (and (g) (increase (total-cost) 2))";

const JUMP: &str = ":precondition (q) :effect (and (g) (increase (total-cost) 1))";

#[test]
fn a_plan_is_valid_or_has_its_first_fault(rt: HostRuntime) -> Result<(), Fail> {
    let rows = " => ends without (g)\n\
        (walk) => valid 2\n\
        (walk)|(walk) => valid 4\n\
        (jump) => step 1 needs (q)\n\
        (walk)|(jump)|(jump) => step 2 needs (q)";
    assert_ways(&rt, rt.alloc(), WALK, JUMP, "(g)", rows)?;
    let rows = " => valid 0\n(walk) => valid 2";
    assert_ways(&rt, rt.alloc(), WALK, JUMP, "(p)", rows)?;
    let rows = " => ends without (g)\n(walk) => ends without (q)";
    assert_ways(&rt, rt.alloc(), WALK, JUMP, "(and (q) (g))", rows)
}

#[test]
fn an_atom_that_is_deleted_and_added_is_true(rt: HostRuntime) -> Result<(), Fail> {
    let walk = ":precondition (p) :effect (and (g) (not (g)) (increase (total-cost) 2))";
    let jump = ":precondition (g) :effect (and (p) (not (p)) (increase (total-cost) 1))";
    let rows = "(walk) => valid 2\n(walk)|(jump)|(walk) => valid 5";
    assert_ways(&rt, rt.alloc(), walk, jump, "(g)", rows)
}

#[test]
fn steps_cost_what_their_roads_cost(rt: HostRuntime) -> Result<(), Fail> {
    let rows = "(go a b)|(go b c) => valid 11\n\
        (ride) => valid 10\n\
        (go a b) => ends without (at c)\n\
        (go a b)|(ride) => step 2 needs (at a)\n\
        (go a b)|(go b a) => step 2 needs (link b a)\n\
        (go b a) => step 1 needs (at b)";
    assert_judgements(&rt, rt.alloc(), ROADS, TO_C, rows)?;
    let problem = "(define (problem c) (:domain roads)\n\
        (:init (at a) (link a b) (link b c) (= (road b c) 9))\n\
        (:goal (at c)) (:metric minimize (total-cost)))";
    let rows = "(go a b)|(go b c) => step 1 has no cost\n\
        (go b c) => step 1 needs (at b)\n\
        (ride)|(ride)|(go a b) => step 3 has no cost";
    assert_judgements(&rt, rt.alloc(), ROADS, problem, rows)
}

#[test]
fn a_parcel_is_delivered(rt: HostRuntime) -> Result<(), Fail> {
    let domain = "(define (domain delivery) (:types truck parcel - thing depot shop - place) \
        (:constants hub - depot)\n\
        (:predicates (at ?x - thing ?p - place) (in ?k - parcel ?t - truck) (road ?a ?b - place))\n\
        (:functions (total-cost) - number (road-length ?a ?b - place) - number)\n\
        (:action drive :parameters (?t - truck ?a ?b - place) \
        :precondition (and (at ?t ?a) (road ?a ?b))\n\
         :effect (and (not (at ?t ?a)) (at ?t ?b) (increase (total-cost) (road-length ?a ?b))))\n\
        (:action load :parameters (?k - parcel ?t - truck ?p - place) \
        :precondition (and (at ?k ?p) (at ?t ?p))\n\
         :effect (and (not (at ?k ?p)) (in ?k ?t) (increase (total-cost) 1)))\n\
        (:action unload :parameters (?k - parcel ?t - truck ?p - place) \
        :precondition (and (in ?k ?t) (at ?t ?p))\n\
         :effect (and (not (in ?k ?t)) (at ?k ?p) (increase (total-cost) 1))))";
    let problem = "(define (problem monday) (:domain delivery) \
        (:objects t1 - truck k1 - parcel mill north - shop)\n\
        (:init (at t1 hub) (at k1 hub) (road hub mill) (road mill hub) (road hub north)\n\
         (= (road-length hub mill) 5.0) (= (road-length mill hub) 5) \
        (= (road-length hub north) 1) (= (road-length north mill) 1))\n\
        (:goal (at k1 mill)) (:metric minimize (total-cost)))";
    let rows = "(load k1 t1 hub)|(drive t1 hub mill)|(unload k1 t1 mill) => valid 7\n\
        (drive t1 hub north) => ends without (at k1 mill)\n\
        (drive t1 hub north)|(drive t1 north mill) => step 2 needs (road north mill)\n\
        (load k1 t1 mill) => step 1 needs (at k1 mill)\n\
        (unload k1 t1 hub) => step 1 needs (in k1 t1)";
    assert_judgements(&rt, rt.alloc(), domain, problem, rows)
}
