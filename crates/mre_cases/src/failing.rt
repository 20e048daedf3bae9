//! What fails in a case.
/// The read of the shelf, the write on the sink of answers and the write on the sink of refusals
/// that fail, each counted from 1, or 0 if none fails.
#[derive(Clone, Copy)]
pub struct Failing {
    pub read: u32,
    pub answer: u32,
    pub refusal: u32,
}

/// No call fails.
pub const NONE_FAILS: Failing = Failing {
    read: 0,
    answer: 0,
    refusal: 0,
};

/// The numbers of a line `failing READ ANSWER REFUSAL`.
pub fn failing_of(line: &str) -> Option<Failing> {
    let (read, writes) = line.strip_prefix("failing ")?.split_once(' ')?;
    let (answer, refusal) = writes.split_once(' ')?;
    Some(Failing {
        read: read.parse::<u32>().ok()?,
        answer: answer.parse::<u32>().ok()?,
        refusal: refusal.parse::<u32>().ok()?,
    })
}
