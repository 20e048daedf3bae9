//! Tests of texts, lists, sets, the node log and the counter.

ghost use Rattle.std.specs.Prelude.{◌≡◌, ◌+◌, ◌<◌};

use mre_base::{Bits, List, Node, NodeLog, Places, PushStop, Steps, Text};
use std::marker::Brand;
use std::sync::ledger::{Blank, Ledger};
use std::test::Fail;

#[test]
fn texts_and_lists_keep_what_they_are_given(rt: HostRuntime) -> Result<(), Fail> {
    let text = Text::of(rt.alloc(), "abc")?;
    assert_eq!(rt; text.copy(rt.alloc())?.as_str(), "abc");
    assert_eq!(rt; text.bytes(), b"abc".as_slice());

    let mut numbers = List::empty(rt.alloc());
    assert!(rt; numbers.is_empty());
    numbers.push(1u32)?;
    numbers.push(2)?;
    *numbers.item_mut(1) += 5;
    assert_eq!(rt; *numbers.item(1), 7);
    let copy = numbers.copy(rt.alloc())?;
    assert_eq!(rt; copy.as_slice(), [1, 7].as_slice());
    assert_eq!(rt; copy.len(), 2);
    Ok(())
}

#[test]
fn places_are_told_apart_across_the_words(rt: HostRuntime) {
    let edges = Places::none().with(1).with(64).with(65).with(128).with(256);
    assert_eq!(rt; edges.count(), 5);
    for place in 1..=256u32 {
        let is_edge = place == 1 || place == 64 || place == 65 || place == 128 || place == 256;
        assert_eq!(rt; edges.has(place), is_edge, "place {place}");
        assert!(rt; edges.copy().with(place).has(place), "with {place}");
        assert!(rt; !edges.copy().without(place).has(place), "without {place}");
    }
    let fewer = edges.without(256).without(2);
    assert_eq!(rt; fewer.count(), 4);
    assert!(rt; fewer.inside(&edges));
    assert!(rt; !edges.inside(&fewer));
    assert!(rt; fewer == Places::none().with(128).with(65).with(64).with(1).with(1));
    assert!(rt; fewer != edges);
    assert!(rt; edges.inside(&edges) && Places::none().inside(&fewer));
}

#[test]
fn bit_sets_of_many_widths(rt: HostRuntime) -> Result<(), Fail> {
    for width in [1, 64, 65, 128, 129, 4097u32] {
        let mut bits = Bits::empty(rt.alloc(), width)?;
        assert_eq!(rt; bits.width(), width);
        assert!(rt; width >= 1);
        bits.put(0);
        bits.put(width - 1);
        assert!(rt;
            bits.contains(0) && bits.contains(width - 1),
            "width {width}"
        );
        let mut other = Bits::empty(rt.alloc(), width)?;
        assert!(rt;
            other.is_subset(&bits) && !bits.is_subset(&other),
            "width {width}"
        );
        assert!(rt; !other.same(&bits), "width {width}");
        other.copy_from(&bits);
        assert!(rt;
            other.same(&bits) && other.copy(rt.alloc())? == bits,
            "width {width}"
        );
        other.take_out(0);
        assert!(rt; !other.contains(0) && bits.contains(0), "width {width}");
    }
    Ok(())
}

/// The numbers of each list, and whether it is before the list of the next row.
#[test]
fn ascending_lists_are_compared_place_by_place(rt: HostRuntime) -> Result<(), Fail> {
    let lists: [(&[u32], bool); 8] = [
        (&[], true),
        (&[0, 70], true),
        (&[0, 70, 71], true),
        (&[0, 199], true),
        (&[63, 64], true),
        (&[64], true),
        (&[64, 65], false),
        (&[64, 65], false),
    ];
    let mut before: Option<Bits> = None;
    let mut says = false;
    for (numbers, next) in lists {
        let mut bits = Bits::empty(rt.alloc(), 200)?;
        for &number in numbers {
            assert!(rt; number < bits.width());
            bits.put(number);
        }
        if let Some(last) = before {
            assert!(rt; last.width() == bits.width());
            assert_eq!(rt; last.list_before(&bits), says, "before {numbers:?}");
            assert!(rt; !says || !bits.list_before(&last), "after {numbers:?}");
        }
        before = Some(bits);
        says = next;
    }
    Ok(())
}

#[test]
fn a_log_refuses_what_it_has_and_what_passes_its_limit(rt: HostRuntime) -> Result<(), Fail> {
    let probe = |place: u32| Node::Probe {
        told: if place == 1 {
            Places::none().with(1)
        } else {
            Places::none()
        },
        left: Places::none(),
    };
    let mut log = NodeLog::new(rt.alloc(), 1);
    assert!(rt; log.is_empty() && log.limit() == 1);
    assert!(rt; matches!(log.push(probe(1)), Ok(0)));
    assert!(rt; matches!(log.push(probe(1)), Err(PushStop::There { place: 0 })));
    match log.push(probe(0)) {
        Err(PushStop::Full { node }) => assert!(rt; node == probe(0)),
        _ => assert!(rt; false, "the log has as many nodes as its limit"),
    }
    assert_eq!(rt; log.len(), 1);
    assert!(rt; *log.node(0) == probe(1));
    Ok(())
}

fn tick_twice<L: Ledger>(steps: &mut Steps<L>)
    ensures { steps.new ≡ steps.old + 2 }
{
    steps.tick();
    steps.tick();
}

fn count<L: Ledger>(blank: Blank)
    requires name { blank.name ≡ L.name }
    requires parts { blank.parts ≡ L.parts }
    requires some { 0 < blank.parts }
{
    tick_twice(&mut Steps::<L>::start(blank));
}

#[test]
fn a_counter_starts_and_ticks() {
    count::<Brand>(Blank::new(1));
}
