//! Shelves, sinks and streams, in memory and of the system.
use mre_base::{List, NoMemory, Text};
use mre_outside::{
    Act, FileShelf, MemoryShelf, MemorySink, PutStop, Shelf, ShelfStop, Sink, SinkStop, SoundSink,
    StdSink, read_from, write_to,
};
use std::alloc::{AllocError, Global};
use std::io::{ErrorKind, Read, Write};
use std::process::Abort;
use std::test::Fail;
use std::{fs, io};

const LINES: [&str; 3] = ["mce 1 of 1\n", "1 initially (q) is not true\n", "cost 2\n"];

fn numbers(alloc: Global, given: &[u32]) -> Result<List<u32>, NoMemory> {
    let mut numbers = List::empty(alloc);
    for number in given {
        numbers.push(*number)?;
    }
    Ok(numbers)
}

/// Five files, each with its own name and a dot as its content.
fn five_files(alloc: Global) -> Result<List<(Text, Text)>, NoMemory> {
    let mut files = List::empty(alloc);
    for (name, content) in [
        ("pd", "pd."),
        ("pp", "pp."),
        ("ud", "ud."),
        ("up", "up."),
        ("plan", "plan."),
    ] {
        files.push((Text::of(alloc, name)?, Text::of(alloc, content)?))?;
    }
    Ok(files)
}

fn write_lines(sink: &mut MemorySink) -> [Result<(), SinkStop>; 3] {
    let mut answers = [Ok(()); 3];
    for place in 0..3 {
        answers[place] = sink.write_all(LINES[place].as_bytes());
    }
    answers
}

// The sink gives these answers to three lines, and holds these bytes.
fn assert_written(
    rt: &impl Abort,
    sink: &mut MemorySink,
    answers: [Result<(), SinkStop>; 3],
    bytes: &str,
) {
    assert_eq!(rt; write_lines(sink), answers, "{bytes}");
    assert_eq!(rt; sink.bytes(), bytes.as_bytes());
}

fn assert_failing(
    rt: &impl Abort,
    alloc: Global,
    failing: &[u32],
    answers: [Result<(), SinkStop>; 3],
    bytes: &str,
) -> Result<(), Fail> {
    let mut sink = MemorySink::new(alloc, numbers(alloc, failing)?);
    assert_written(rt, &mut sink, answers, bytes);
    Ok(())
}

#[test]
fn a_chosen_write_takes_the_first_half(rt: HostRuntime) -> Result<(), Fail> {
    let alloc = rt.alloc();
    let failed = Err(SinkStop::Failed);
    let all = "mce 1 of 1\n1 initially (q) is not true\ncost 2\n";
    assert_failing(&rt, alloc, &[], [Ok(()), Ok(()), Ok(())], all)?;
    let first = "mce 11 initially (q) is not true\ncost 2\n";
    assert_failing(&rt, alloc, &[1], [failed, Ok(()), Ok(())], first)?;
    let second = "mce 1 of 1\n1 initially (qcost 2\n";
    assert_failing(&rt, alloc, &[2, 9], [Ok(()), failed, Ok(())], second)?;
    let third = "mce 1 of 1\n1 initially (q) is not true\ncos";
    assert_failing(&rt, alloc, &[3], [Ok(()), Ok(()), failed], third)
}

#[test]
fn a_sink_that_stops_goes_on_failing(rt: HostRuntime) {
    let failed = Err(SinkStop::Failed);
    let mut sink = MemorySink::stopping(rt.alloc(), 2);
    let bytes = "mce 1 of 1\n1 initially (qcos";
    assert_written(&rt, &mut sink, [Ok(()), failed, failed], bytes);
}

#[test]
fn a_sound_sink_takes_all(rt: HostRuntime) {
    let mut sink = SoundSink::new(rt.alloc());
    assert_eq!(rt; sink.write_all(b"abc"), Ok(()));
    assert_eq!(rt; sink.bytes(), b"abc".as_slice());
}

/// Reads the five files, puts eleven bytes under `c` and reads them: which of the calls failed.
fn play(shelf: &mut MemoryShelf) -> [bool; 7] {
    let mut failed = [false; 7];
    for (place, name) in ["pd", "pp", "ud", "up", "plan"].iter().enumerate() {
        failed[place] = shelf.read(name, 100) == Err(ShelfStop::Failed);
    }
    failed[5] = shelf.put("c", b"certificate") == Err(PutStop::Failed);
    failed[6] = shelf.read("c", 100) == Err(ShelfStop::Failed);
    failed
}

#[test]
fn a_chosen_put_leaves_the_first_half(rt: HostRuntime) -> Result<(), Fail> {
    let alloc = rt.alloc();
    let rows: [(&[u32], &[usize], &str); 6] = [
        (&[], &[], "certificate"),
        (&[1], &[1], "certificate"),
        (&[3, 5], &[3, 5], "certificate"),
        (&[6], &[6], "certi"),
        (&[7, 8], &[7], "certificate"),
        (&[0, 9], &[], "certificate"),
    ];
    for (failing, calls, content) in rows {
        let mut shelf = MemoryShelf::new(alloc, five_files(alloc)?, numbers(alloc, failing)?);
        let failed = play(&mut shelf);
        for call in 1..=7 {
            assert_eq!(rt;
                failed[call - 1],
                calls.contains(&call),
                "call {call}, failing {failing:?}"
            );
        }
        assert_eq!(rt;
            shelf.file("c"),
            Some(content.as_bytes()),
            "failing {failing:?}"
        );
        assert_eq!(rt;
            shelf.file("up"),
            Some(b"up.".as_slice()),
            "failing {failing:?}"
        );
    }
    let mut shelf = MemoryShelf::stopping(alloc, five_files(alloc)?, 6);
    assert_eq!(rt;
        play(&mut shelf),
        [false, false, false, false, false, true, true]
    );
    assert_eq!(rt; shelf.file("c"), Some(b"certi".as_slice()));
    Ok(())
}

#[test]
fn what_a_shelf_in_memory_answers(rt: HostRuntime) -> Result<(), Fail> {
    let alloc = rt.alloc();
    let mut shelf = MemoryShelf::new(alloc, five_files(alloc)?, List::empty(alloc));
    let rows: [(&str, u32, Result<&str, ShelfStop>); 5] = [
        ("plan", 5, Ok("plan.")),
        ("plan", 4, Err(ShelfStop::TooLong)),
        ("pl", 9, Err(ShelfStop::Failed)),
        ("", 9, Err(ShelfStop::Failed)),
        ("pd", 4_194_304, Ok("pd.")),
    ];
    for (name, limit, answer) in rows {
        match shelf.read(name, limit) {
            Ok(bytes) => assert_eq!(rt;
                Ok(bytes.as_slice()),
                answer.map(|text| text.as_bytes()),
                "{name} {limit}"
            ),
            Err(stop) => assert_eq!(rt; Err(stop), answer, "{name} {limit}"),
        }
    }
    assert_eq!(rt; shelf.put("pd", b"new"), Ok(()));
    assert_eq!(rt; shelf.file("pd"), Some(b"new".as_slice()));
    let asked = [
        ("plan", Act::Read, false),
        ("plan", Act::Read, false),
        ("pl", Act::Read, true),
        ("", Act::Read, true),
        ("pd", Act::Read, false),
        ("pd", Act::Put, false),
    ];
    assert_eq!(rt; shelf.asked().len(), asked.len());
    for (call, (name, act, failed)) in shelf.asked().iter().zip(asked) {
        assert_eq!(rt;
            (call.name.as_str(), call.act, call.failed),
            (name, act, failed)
        );
    }
    Ok(())
}

/// What a scripted stream does at one call.
#[derive(Clone, Copy)]
enum Step {
    /// Takes or gives at most this many bytes.
    Most(usize),
    Fail(ErrorKind),
}

/// A stream that does one of its steps at each call, and after them takes or gives all it can.
#[derive(Drop)]
struct Script<'a> {
    steps: &'a [Step],
    left: &'a [u8],
    taken: Vec<u8>,
}

impl<'a> Script<'a> {
    fn new(alloc: Global, steps: &'a [Step], left: &'a [u8]) -> Script<'a> {
        Script {
            steps,
            left,
            taken: Vec::new(alloc),
        }
    }

    fn next_most(&mut self) -> io::Result<usize> {
        match self.steps {
            [] => Ok(usize::MAX),
            [Step::Most(most), later @ ..] => {
                self.steps = later;
                Ok(*most)
            }
            [Step::Fail(kind), later @ ..] => {
                self.steps = later;
                Err(io::Error::from(*kind))
            }
        }
    }
}

impl Write for Script<'_> {
    fn write(&mut self, bytes: &[u8]) -> io::Result<usize> {
        let count = self.next_most()?.min(bytes.len());
        self.taken.extend_from_slice(&bytes[..count])?;
        Ok(count)
    }

    fn flush(&mut self) -> io::Result<()> {
        Ok(())
    }
}

impl Read for Script<'_> {
    fn read(&mut self, room: &mut [u8]) -> io::Result<usize> {
        let count = self.next_most()?.min(room.len()).min(self.left.len());
        let (given, left) = self.left.split_at(count);
        room[..count].copy_from_slice(given);
        self.left = left;
        Ok(count)
    }
}

// A writer with these steps takes these of the bytes `abcdef`, and this number of failures is
// counted.
fn assert_taken(
    rt: &impl Abort,
    alloc: Global,
    steps: &[Step],
    succeeds: bool,
    taken: &str,
    failures: u64,
) {
    let mut script = Script::new(alloc, steps, b"");
    let mut count = 0;
    let written = write_to(&mut script, b"abcdef", &mut count);
    assert_eq!(rt; written.is_ok(), succeeds, "{taken}");
    assert_eq!(rt; script.taken.as_slice(), taken.as_bytes());
    assert_eq!(rt; count, failures, "{taken}");
}

#[test]
fn a_writer_that_takes_little_or_fails(rt: HostRuntime) {
    let alloc = rt.alloc();
    let [one, two, three] = [Step::Most(1), Step::Most(2), Step::Most(3)];
    let interrupted = Step::Fail(ErrorKind::Interrupted);
    assert_taken(&rt, alloc, &[], true, "abcdef", 0);
    assert_taken(&rt, alloc, &[two, one], true, "abcdef", 0);
    let again = [two, interrupted, interrupted, one];
    assert_taken(&rt, alloc, &again, true, "abcdef", 2);
    assert_taken(&rt, alloc, &[three, Step::Most(0)], false, "abc", 1);
    let broken = Step::Fail(ErrorKind::BrokenPipe);
    assert_taken(&rt, alloc, &[one, broken], false, "a", 1);
}

#[test]
fn a_sink_writes_over_a_writer(rt: HostRuntime) {
    let mut sink = StdSink::over(Vec::new(rt.alloc()));
    assert_eq!(rt; sink.write_all(b"abc"), Ok(()));
}

#[test]
fn a_reader_that_gives_little_or_fails(rt: HostRuntime) -> Result<(), Fail> {
    let alloc = rt.alloc();
    let interrupted = Step::Fail(ErrorKind::Interrupted);
    let rows: [(&[Step], u32, Result<(), ShelfStop>, u64); 6] = [
        (&[], 6, Ok(()), 0),
        (&[], 5, Err(ShelfStop::TooLong), 0),
        (&[Step::Most(5)], 5, Err(ShelfStop::TooLong), 0),
        (&[Step::Most(2), interrupted, Step::Most(1)], 9, Ok(()), 1),
        (
            &[Step::Most(6), Step::Fail(ErrorKind::Other)],
            6,
            Err(ShelfStop::Failed),
            1,
        ),
        (
            &[Step::Fail(ErrorKind::IsADirectory)],
            6,
            Err(ShelfStop::Failed),
            1,
        ),
    ];
    for (steps, limit, answer, failures) in rows {
        let mut script = Script::new(alloc, steps, b"abcdef");
        let room = Vec::with_capacity(alloc, limit as usize + 1)?;
        let mut count = 0;
        match read_from(&mut script, room, limit, &mut count) {
            Ok(bytes) => assert_eq!(rt; (Ok(()), bytes.as_slice()), (answer, b"abcdef".as_slice())),
            Err(stop) => assert_eq!(rt; Err(stop), answer, "limit {limit}"),
        }
        assert_eq!(rt; count, failures, "limit {limit}");
    }
    Ok(())
}

#[test]
fn files_of_the_system(rt: HostRuntime) -> Result<(), Fail> {
    let alloc = rt.alloc();
    let mut shelf = FileShelf::new(alloc, &rt);
    let long = vec![in alloc; b'x'; 70_000]?;
    assert_eq!(rt; shelf.put("long", long.as_slice()), Ok(()));
    assert_eq!(rt; shelf.put("short", b"twelve bytes"), Ok(()));
    assert_eq!(rt; shelf.put("short", b"five!"), Ok(()));
    assert_eq!(rt; shelf.put(".", b"a folder"), Err(PutStop::Failed));
    let rows: [(&str, u32, Result<&[u8], ShelfStop>); 8] = [
        ("short", 5, Ok(b"five!")),
        ("short", 4, Err(ShelfStop::TooLong)),
        ("short", 4_194_304, Ok(b"five!")),
        ("long", 70_000, Ok(long.as_slice())),
        ("long", 69_999, Err(ShelfStop::TooLong)),
        (".", 9, Err(ShelfStop::Failed)),
        ("missing", 9, Err(ShelfStop::Failed)),
        ("", 9, Err(ShelfStop::Failed)),
    ];
    for (name, limit, answer) in rows {
        match shelf.read(name, limit) {
            Ok(bytes) => assert!(rt; Ok(bytes.as_slice()) == answer, "{name} {limit}"),
            Err(stop) => assert_eq!(rt; Err(stop), answer.map(|_| ()), "{name} {limit}"),
        }
    }
    Ok(())
}

#[test]
fn streams_of_the_system(rt: HostRuntime) -> Result<(), Fail> {
    let alloc = rt.alloc();
    assert_eq!(rt; StdSink::output(rt.stdout()).write_all(b"output\n"), Ok(()));
    assert_eq!(rt; StdSink::errors(rt.stderr()).write_all(b"errors\n"), Ok(()));
    let mut sink = StdSink::over(fs::create(&rt, "lines")?);
    for line in LINES {
        assert_eq!(rt; sink.write_all(line.as_bytes()), Ok(()), "{line}");
    }
    let mut shelf = FileShelf::new(alloc, &rt);
    let bytes = shelf.read("lines", 46).ok().ok_or("unread")?;
    assert_eq!(rt;
        bytes.as_slice(),
        b"mce 1 of 1\n1 initially (q) is not true\ncost 2\n".as_slice()
    );
    assert_eq!(rt;
        StdSink::over(fs::open(&rt, "lines")?).write_all(b"x"),
        Err(SinkStop::Failed)
    );
    Ok(())
}
