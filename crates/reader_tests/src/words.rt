//! Tests of the words and lists of texts, and of the lines of plans.
ghost use Rattle.std.specs.Prelude.{◌^◌, ◌<◌, length};

use mre_base::List;
use pddl_text::{
    Forest, Place, PlanLine, ReadStop, Tree, law_forests, law_plans, law_tokens, read_forest,
    read_plan_lines,
};
use std::alloc::{AllocError, Global};
use std::test::Fail;

fn push_place(alloc: Global, shown: &mut String, at: Place) -> Result<(), AllocError> {
    let line = at.line;
    let column = at.column;
    shown.push_str(format!(in alloc; "@{line}:{column}")?.as_str())
}

// A word as `text@line:column#first-past `, a list as `(@line:column .. )@line:column `.
fn push_trees(alloc: Global, shown: &mut String, trees: &List<Tree>) -> Result<(), AllocError> {
    for place in 0..trees.len() {
        match trees.item(place) {
            Tree::Word {
                text,
                at,
                first,
                past,
            } => {
                shown.push_str(text.as_str())?;
                push_place(alloc, shown, *at)?;
                shown.push_str(format!(in alloc; "#{first}-{past} ")?.as_str())?;
            }
            Tree::Items { list, at, close } => {
                shown.push_str("(")?;
                push_place(alloc, shown, *at)?;
                shown.push_str(" ")?;
                push_trees(alloc, shown, list)?;
                shown.push_str(")")?;
                push_place(alloc, shown, *close)?;
                shown.push_str(" ")?;
            }
        }
    }
    Ok(())
}

// The trees, and `end@line:column` with the place past the last byte.
fn shown_forest(alloc: Global, forest: &Forest) -> Result<String, AllocError> {
    let mut shown = String::new(alloc);
    push_trees(alloc, &mut shown, &forest.trees)?;
    shown.push_str("end")?;
    push_place(alloc, &mut shown, forest.past)?;
    Ok(shown)
}

// Each line as its words `text@line:column ` and a `;`.
fn shown_lines(alloc: Global, lines: &List<PlanLine>) -> Result<String, AllocError> {
    let mut shown = String::new(alloc);
    for line in 0..lines.len() {
        let words = &lines.item(line).words;
        for place in 0..words.len() {
            let (text, at) = words.item(place);
            shown.push_str(text.as_str())?;
            push_place(alloc, &mut shown, *at)?;
            shown.push_str(" ")?;
        }
        shown.push_str(";")?;
    }
    Ok(shown)
}

// A fault as `rule@line:column` and its word.
fn shown_stop(alloc: Global, stop: &ReadStop) -> Result<String, AllocError> {
    let mut shown = String::new(alloc);
    match stop {
        ReadStop::Fault(fault) => {
            shown.push_str(fault.rule.name())?;
            push_place(alloc, &mut shown, fault.at)?;
            shown.push_str(fault.word.as_str())?;
        }
        ReadStop::NoMemory => shown.push_str("no memory")?,
    }
    Ok(shown)
}

// The forest of a text, or its fault.
fn read_text(alloc: Global, text: &[u8]) -> Result<String, AllocError>
    requires { length text.now < 2 ^ 28 }
{
    match read_forest(alloc, text) {
        Ok(forest) => shown_forest(alloc, &forest),
        Err(stop) => shown_stop(alloc, &stop),
    }
}

// The lines of a plan, or its fault.
fn read_plan(alloc: Global, text: &[u8]) -> Result<String, AllocError>
    requires { length text.now < 2 ^ 28 }
{
    match read_plan_lines(alloc, text) {
        Ok(lines) => shown_lines(alloc, &lines),
        Err(stop) => shown_stop(alloc, &stop),
    }
}

#[test]
fn forests_of_texts(rt: HostRuntime) -> Result<(), Fail> {
    let rows: [(&[u8], &str); 21] = [
        (b"", "end@1:1"),
        (b"a", "a@1:1#0-1 end@1:2"),
        (b"Ab-C", "ab-c@1:1#0-4 end@1:5"),
        (b"AZ[`az{", "az[`az{@1:1#0-7 end@1:8"),
        (b"!~?:=-_5.0", "!~?:=-_5.0@1:1#0-10 end@1:11"),
        (b"()", "(@1:1 )@1:2 end@1:3"),
        (b"( )\n", "(@1:1 )@1:3 end@2:1"),
        (
            b"(define (domain D))",
            "(@1:1 define@1:2#1-7 (@1:9 domain@1:10#9-15 d@1:17#16-17 )@1:18 )@1:19 end@1:20",
        ),
        (
            b"a(b)c",
            "a@1:1#0-1 (@1:2 b@1:3#2-3 )@1:4 c@1:5#4-5 end@1:6",
        ),
        (b"(()())", "(@1:1 (@1:2 )@1:3 (@1:4 )@1:5 )@1:6 end@1:7"),
        (b"\n\n a", "a@3:2#3-4 end@3:3"),
        (b"\ta", "a@1:2#1-2 end@1:3"),
        (b"a\r\nb\r\n", "a@1:1#0-1 b@2:1#3-4 end@3:1"),
        (b"a\rb", "a@1:1#0-1 b@1:3#2-3 end@1:4"),
        (b"a;b\nc", "a@1:1#0-1 c@2:1#4-5 end@2:2"),
        (b"a;", "a@1:1#0-1 end@1:3"),
        (b"; only", "end@1:7"),
        (b";;\n;", "end@2:2"),
        (b";a\rb\nc", "c@2:1#5-6 end@2:2"),
        (b";\x00\x7f\x80\xff(\na", "a@2:1#7-8 end@2:2"),
        (b"(;)\n)", "(@1:1 )@2:1 end@2:2"),
    ];
    for (text, shown) in rows {
        assert!(rt; text.len() < 100);
        let found = read_text(rt.alloc(), text)?;
        assert_eq!(rt; found.as_str(), shown);
    }
    Ok(())
}

#[test]
fn first_faults_of_texts(rt: HostRuntime) -> Result<(), Fail> {
    let rows: [(&[u8], &str); 25] = [
        (b"\x00", "byte@1:1"),
        (b"\x0b", "byte@1:1"),
        (b"\x1f", "byte@1:1"),
        (b"a\x0cb", "byte@1:2"),
        (b"a\x7f", "byte@1:2"),
        (b"(a \x80)", "byte@1:4"),
        (b"a \xc3\xa4", "byte@1:3"),
        (b"\xff", "byte@1:1"),
        (b";\xff\n\xff", "byte@2:1"),
        (b"(\xff", "byte@1:2"),
        (b")", "close@1:1"),
        (b"())", "close@1:3"),
        (b"()\n)", "close@2:1"),
        (b"(a))b(", "close@1:4"),
        (b")\xff", "close@1:1"),
        (b"(", "open@1:2"),
        (b"(a", "open@1:3"),
        (b"((a)", "open@1:5"),
        (b"(a\n", "open@2:1"),
        (b"(\r\n", "open@2:1"),
        (b"(\r", "open@1:3"),
        (b"(;", "open@1:3"),
        (b"(; (no list)", "open@1:13"),
        (b"(;)", "open@1:4"),
        (b"(;)\n ", "open@2:2"),
    ];
    for (text, shown) in rows {
        assert!(rt; text.len() < 100);
        let found = read_text(rt.alloc(), text)?;
        assert_eq!(rt; found.as_str(), shown);
    }
    Ok(())
}

#[test]
fn lines_of_plans(rt: HostRuntime) -> Result<(), Fail> {
    let rows: [(&[u8], &str); 20] = [
        (b"", ""),
        (b"\n\n", ""),
        (b"\r\n \t\r\n", ""),
        (b"; only\n", ""),
        (b" ; only", ""),
        (b"(a)", "a@1:2 ;"),
        (b"(a)\n", "a@1:2 ;"),
        (b"(a)\n(b)", "a@1:2 ;b@2:2 ;"),
        (b"(a)\r\n(b)\r\n", "a@1:2 ;b@2:2 ;"),
        (b"\n(a)\n\n;\n(b)\n", "a@2:2 ;b@5:2 ;"),
        (
            b"(LOAD k1 T1)\n(drive t1)\n",
            "load@1:2 k1@1:7 t1@1:10 ;drive@2:2 t1@2:8 ;",
        ),
        (b"( a )", "a@1:3 ;"),
        (b"(a\tb)", "a@1:2 b@1:4 ;"),
        (b"\t( \tWALK ) \r", "walk@1:5 ;"),
        (b"\r(a)", "a@1:3 ;"),
        (b"(_x 9y z?-~)", "_x@1:2 9y@1:5 z?-~@1:8 ;"),
        (b"(a);b\n", "a@1:2 ;"),
        (b"(a) ; )(\n(b)", "a@1:2 ;b@2:2 ;"),
        (b";\x00\x7f\x80\xff)\n(a)", "a@2:2 ;"),
        (b";\r(a)\n(b)", "b@2:2 ;"),
    ];
    for (text, shown) in rows {
        assert!(rt; text.len() < 100);
        let found = read_plan(rt.alloc(), text)?;
        assert_eq!(rt; found.as_str(), shown);
    }
    Ok(())
}

#[test]
fn first_faults_of_plans(rt: HostRuntime) -> Result<(), Fail> {
    let rows: [(&[u8], &str); 34] = [
        (b"a", "form@1:1"),
        (b")", "form@1:1"),
        (b"\xff", "form@1:1"),
        (b"0: (a) [1]", "form@1:1"),
        (b" a", "form@1:2"),
        (b"()", "form@1:2"),
        (b"( )", "form@1:3"),
        (b"((a))", "form@1:2"),
        (b"(?x)", "form@1:2"),
        (b"(-a)", "form@1:2"),
        (b"(\x80)", "form@1:2"),
        (b"(a -b)", "form@1:4"),
        (b"(a(b))", "form@1:3"),
        (b"(a\x00)", "form@1:3"),
        (b"(w\xc3\xa4lk)", "form@1:3"),
        (b"(a))", "form@1:4"),
        (b"(a) x", "form@1:5"),
        (b"(a) (b)", "form@1:5"),
        (b"(a)\r(b)", "form@1:5"),
        (b"(a)\x7f", "form@1:4"),
        (b"(a\rb)", "form@1:3"),
        (b"(a \r b)", "form@1:4"),
        (b"(\ra)", "form@1:2"),
        (b"(", "form@1:2"),
        (b"(a", "form@1:3"),
        (b"(a\n)", "form@1:3"),
        (b"(a \n", "form@1:3"),
        (b"(a\r\n", "form@1:3"),
        (b"(a \r \n", "form@1:3"),
        (b"( \t", "form@1:2"),
        (b"(a;b)", "form@1:3"),
        (b" (walk ; (done)\n", "form@1:7"),
        (b"(walk)\n(", "form@2:2"),
        (b"(a)\n\n b\n(", "form@3:2"),
    ];
    for (text, shown) in rows {
        assert!(rt; text.len() < 100);
        let found = read_plan(rt.alloc(), text)?;
        assert_eq!(rt; found.as_str(), shown);
    }
    Ok(())
}

// This number of `(` and then this number of `)`.
fn nested(alloc: Global, opened: usize, closed: usize) -> Result<Vec<u8>, AllocError> {
    let mut text = Vec::new(alloc);
    for _ in 0..opened {
        text.push(b'(')?;
    }
    for _ in 0..closed {
        text.push(b')')?;
    }
    Ok(text)
}

#[test]
fn at_most_64_open_lists(rt: HostRuntime) -> Result<(), Fail> {
    let rows = [
        (64, 0, "open@1:65"),
        (65, 0, "deep@1:65"),
        (65, 65, "deep@1:65"),
        (64, 65, "close@1:129"),
    ];
    for (opened, closed, shown) in rows {
        let text = nested(rt.alloc(), opened, closed)?;
        assert!(rt; text.len() < 1000);
        let found = read_text(rt.alloc(), text.as_slice())?;
        assert_eq!(rt; found.as_str(), shown);
    }
    let text = nested(rt.alloc(), 64, 64)?;
    assert!(rt; text.len() < 1000);
    let found = read_text(rt.alloc(), text.as_slice())?;
    assert!(rt; found.as_str().starts_with("(@1:1 (@1:2 "));
    assert!(rt; found.as_str().ends_with(")@1:127 )@1:128 end@1:129"));
    law_tokens();
    law_forests();
    law_plans();
    Ok(())
}
