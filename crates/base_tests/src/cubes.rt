//! Tests of the order of sets, of weights and of cubes.

ghost use Rattle.std.specs.Prelude.{◌≤◌};
ghost use Rattle.cube_kit.specs.Cubes.{IsWithin};

use cube_kit::{Cube, Weights, is_before};
use mre_base::{Places, Side};
use std::process::Abort;

// The set of the numbers up to d that are given.
fn set_to(d: u32, numbers: &[u32]) -> Places
    requires { d ≤ 256 }
    ensures { IsWithin d result }
{
    let mut set = Places::none();
    for &number in numbers {
        if 1 <= number && number <= d {
            set = set.with(number);
        }
    }
    set
}

fn set_of(numbers: &[u32]) -> Places {
    set_to(256, numbers)
}

fn weights_of(changes: &[(u32, u32)]) -> Weights {
    let mut weights = Weights::ones();
    for &(place, weight) in changes {
        if 1 <= place && place <= 256 && 1 <= weight && weight <= 1000000 {
            weights.set(place, weight);
        }
    }
    weights
}

// Checks that of two different sets only the first is before the other.
fn assert_before(rt: &impl Abort, weights: &[(u32, u32)], one: &[u32], two: &[u32]) {
    let weights = weights_of(weights);
    let one = set_of(one);
    let two = set_of(two);
    assert!(rt;
        is_before(&weights, &one, &two),
        "{one:?} is before {two:?}"
    );
    assert!(rt;
        !is_before(&weights, &two, &one),
        "{two:?} is not before {one:?}"
    );
    assert!(rt;
        !is_before(&weights, &one, &one),
        "{one:?} is not before itself"
    );
}

#[test]
fn sets_stand_in_order(rt: HostRuntime) {
    assert_before(&rt, &[], &[], &[1]);
    assert_before(&rt, &[], &[1], &[2]);
    assert_before(&rt, &[], &[256], &[1, 2]);
    assert_before(&rt, &[], &[1, 256], &[2, 3]);
    assert_before(&rt, &[], &[1, 2], &[1, 3]);
    assert_before(&rt, &[], &[64], &[65]);
    assert_before(&rt, &[], &[128], &[129]);
    assert_before(&rt, &[], &[1, 192], &[1, 193]);
    assert_before(&rt, &[], &[1, 64, 128], &[1, 64, 129]);
    assert_before(&rt, &[], &[254, 255], &[254, 256]);
    assert_before(&rt, &[(2, 5)], &[3, 4], &[2]);
    assert_before(&rt, &[(2, 2)], &[2], &[3, 4]);
    assert_before(&rt, &[(1, 3), (3, 2)], &[1], &[2, 3]);
    assert_before(&rt, &[(256, 1000000)], &[1, 2, 3, 4, 5], &[256]);
    assert_before(
        &rt,
        &[(100, 999999), (200, 1000000)],
        &[100, 150],
        &[200, 201],
    );
    assert_before(&rt, &[(100, 999999), (200, 1000000)], &[200], &[100, 150]);
}

#[test]
fn weights_add_up(rt: HostRuntime) {
    let mut weights = Weights::ones();
    weights.set(2, 5);
    weights.set(256, 1000000);
    let kept = weights.copy();
    weights.set(2, 7);
    assert_eq!(rt; weights.weight(1), 1);
    assert_eq!(rt; weights.weight(2), 7);
    assert_eq!(rt; kept.weight(2), 5);
    assert_eq!(rt; kept.total(&set_of(&[])), 0);
    assert_eq!(rt; kept.total(&set_of(&[1, 2, 3])), 7);
    assert_eq!(rt; kept.total(&set_of(&[2, 255, 256])), 1000006);
}

#[test]
fn cubes_have_their_members(rt: HostRuntime) {
    let root = Cube::root(256);
    assert!(rt; root.contains(&set_of(&[])));
    assert!(rt; root.contains(&set_of(&[1, 256])));
    assert_eq!(rt; root.undecided.count(), 256);
    let told = root.decide(200, Side::Told);
    let left = root.decide(200, Side::Left);
    assert!(rt; told.contains(&set_of(&[1, 200])));
    assert!(rt; !told.contains(&set_of(&[1])));
    assert!(rt; left.contains(&set_of(&[1])));
    assert!(rt; !left.contains(&set_of(&[1, 200])));
    assert_eq!(rt; told.least(), set_of(&[200]));
    assert_eq!(rt; left.least(), set_of(&[]));
    assert_eq!(rt; left.left, set_of(&[200]));
    let copy = told.copy();
    assert_eq!(rt; copy.told, set_of(&[200]));
    assert_eq!(rt; copy.undecided.count(), 255);
}

#[test]
fn single_and_above_stand_on_their_set(rt: HostRuntime) {
    let set = set_to(4, &[2, 3]);
    let single = Cube::single(&set, 4);
    assert!(rt; single.contains(&set_of(&[2, 3])));
    assert!(rt; !single.contains(&set_of(&[2])));
    assert!(rt; !single.contains(&set_of(&[2, 3, 4])));
    assert_eq!(rt; single.left, set_of(&[1, 4]));
    let above = Cube::above(&set, 4);
    assert!(rt; above.contains(&set_of(&[2, 3])));
    assert!(rt; above.contains(&set_of(&[1, 2, 3, 4])));
    assert!(rt; !above.contains(&set_of(&[2, 4])));
    assert_eq!(rt; above.undecided, set_of(&[1, 4]));
    assert_eq!(rt; above.least(), set_of(&[2, 3]));
}
