//! Tests of vocabularies and models: lists that make one, and lists that don't.

mod making;
mod rows;

use making::{are_model, are_words};
use rows::{DELIVERY, ROADS, Rows, WAYS};
use std::alloc::Global;
use std::process::Abort;
use std::test::Fail;

fn assert_words(
    rt: &impl Abort,
    alloc: Global,
    rows: &Rows,
    wanted: bool,
    what: &str,
) -> Result<(), Fail> {
    let made = are_words(alloc, rows)?;
    assert!(rt; made == wanted, "{what}");
    Ok(())
}

fn assert_model(
    rt: &impl Abort,
    alloc: Global,
    rows: &Rows,
    wanted: bool,
    what: &str,
) -> Result<(), Fail> {
    let made = are_model(alloc, rows)?;
    assert!(rt; made == wanted, "{what}");
    Ok(())
}

// The facts are initial ones, and then goals.
fn assert_facts(
    rt: &impl Abort,
    alloc: Global,
    facts: &'static str,
    wanted: bool,
) -> Result<(), Fail> {
    let rows = Rows {
        init: facts,
        ..DELIVERY
    };
    assert_model(rt, alloc, &rows, wanted, facts)?;
    let rows = Rows {
        goal: facts,
        ..DELIVERY
    };
    assert_model(rt, alloc, &rows, wanted, facts)
}

#[test]
fn action_names_are_in_lower_case_and_differ(rt: HostRuntime) -> Result<(), Fail> {
    let lists = [
        ("", true),
        ("_, 0?, a-b shop", true),
        ("at, hub, object, total-cost", true),
        ("drive, load, drive", false),
        ("Drive", false),
        ("-", false),
        ("?x", false),
        ("a(b", false),
        ("caf\u{e9}", false),
        ("drive stone", false),
    ];
    for (actions, wanted) in lists {
        let rows = Rows {
            actions,
            ..DELIVERY
        };
        assert_words(&rt, rt.alloc(), &rows, wanted, actions)?;
    }
    Ok(())
}

#[test]
fn objects_differ_and_have_types(rt: HostRuntime) -> Result<(), Fail> {
    for objects in ["a object, a object", "a stone", "A object"] {
        let rows = Rows { objects, ..ROADS };
        assert_words(&rt, rt.alloc(), &rows, false, objects)?;
    }
    Ok(())
}

#[test]
fn no_function_is_named_total_cost(rt: HostRuntime) -> Result<(), Fail> {
    for functions in ["total-cost", "road, road", "road stone"] {
        let rows = Rows { functions, ..ROADS };
        assert_words(&rt, rt.alloc(), &rows, false, functions)?;
    }
    Ok(())
}

#[test]
fn each_chain_of_parents_ends_at_object(rt: HostRuntime) -> Result<(), Fail> {
    let lists = [
        ("object object, a b, b object", true),
        ("", false),
        ("thing thing", false),
        ("object thing, thing object", false),
        ("object object, a b, b a", false),
        ("object object, a a", false),
        ("object object, a stone", false),
        ("object object, a object, a object", false),
    ];
    for (types, wanted) in lists {
        let rows = Rows { types, ..WAYS };
        assert_words(&rt, rt.alloc(), &rows, wanted, types)?;
    }
    Ok(())
}

#[test]
fn facts_fit_and_differ(rt: HostRuntime) -> Result<(), Fail> {
    let lists = [
        ("at t1 mill, at k1 mill, in k1 t1", true),
        ("at t1 hub, at t1 hub", false),
        ("at t1", false),
        ("at t1 hub hub", false),
        ("at mill hub", false),
        ("at t1 k1", false),
        ("at t1 moon", false),
        ("on t1 hub", false),
    ];
    for (facts, wanted) in lists {
        assert_facts(&rt, rt.alloc(), facts, wanted)?;
    }
    Ok(())
}

#[test]
fn schemas_are_as_many_as_the_actions_and_fit(rt: HostRuntime) -> Result<(), Fail> {
    let lists = [
        ("/ / / 1; / / / road a b", true),
        ("/ / / 1", false),
        ("/ / / 1; at a, at a / / / 1", false),
        ("/ / / 1; at ?1 / / / 1", false),
        ("/ / / 1; / at a b / / 1", false),
        ("/ / / 1; / / at d / 1", false),
        ("/ / / 1; / / / road a", false),
        ("/ / / 1; / / / length a b", false),
    ];
    for (schemas, wanted) in lists {
        let rows = Rows { schemas, ..ROADS };
        assert_model(&rt, rt.alloc(), &rows, wanted, schemas)?;
    }
    Ok(())
}

#[test]
fn a_parameter_is_of_the_declared_type_or_below_it(rt: HostRuntime) -> Result<(), Fail> {
    let lists = [
        ("at ?1 ?2 / / / 1; / / / 1; / / / 1", true),
        ("at ?2 ?2 / / / 1; / / / 1; / / / 1", false),
        ("/ / / 1; in ?1 ?2 / / / 1; / / / 1", true),
        ("/ / / 1; in ?2 ?2 / / / 1; / / / 1", false),
    ];
    for (schemas, wanted) in lists {
        let rows = Rows {
            schemas,
            ..DELIVERY
        };
        assert_model(&rt, rt.alloc(), &rows, wanted, schemas)?;
    }
    let rows = Rows {
        predicates: "at truck depot, in parcel truck, road place place",
        init: "at t1 hub",
        goal: "",
        schemas: "at ?1 ?2 / / / 1; / / / 1; / / / 1",
        ..DELIVERY
    };
    assert_model(&rt, rt.alloc(), &rows, false, "a place for a depot")
}

#[test]
fn a_function_has_one_value_at_its_objects(rt: HostRuntime) -> Result<(), Fail> {
    for values in ["road a b = 2, road a b = 3", "road a = 2", "length = 2"] {
        let rows = Rows { values, ..ROADS };
        assert_model(&rt, rt.alloc(), &rows, false, values)?;
    }
    Ok(())
}

#[test]
fn unknown_actions_are_actions_and_differ(rt: HostRuntime) -> Result<(), Fail> {
    for unknown in ["go, go", "swim"] {
        let rows = Rows { unknown, ..ROADS };
        assert_model(&rt, rt.alloc(), &rows, false, unknown)?;
    }
    Ok(())
}
