//! Tests of numbers and of the sorts of words.
use pddl_form::{Sort, law_domains, law_forms, law_numbers, law_problems, number_of, sort_of};

#[test]
fn numbers_of_words(rt: HostRuntime) {
    let rows = [
        ("0", Some(0)),
        ("007", Some(7)),
        ("5.", Some(5)),
        ("5.000", Some(5)),
        ("4294967295", Some(4294967295)),
        ("4294967296", None),
        ("5.01", None),
        (".5", None),
        ("", None),
    ];
    for (text, number) in rows {
        assert_eq!(rt; number_of(text.as_bytes()), number, "{text}");
    }
}

#[test]
fn sorts_of_words(rt: HostRuntime) {
    assert!(rt; matches!(sort_of(b":durative-action"), Sort::DurativeAction));
    assert!(rt; matches!(sort_of(b"total-cost"), Sort::TotalCost));
    assert!(rt; matches!(sort_of(b"5.0"), Sort::Numeral));
    assert!(rt; matches!(sort_of(b"5.1"), Sort::Name));
    assert!(rt; matches!(sort_of(b"?x"), Sort::Variable));
    assert!(rt; matches!(sort_of(b"?"), Sort::Other));
    law_forms();
    law_domains();
    law_problems();
    law_numbers();
}
