// SHA-256: the messages that NIST publishes, and every length around one and two blocks.
use crate::data::{Case, Tally, cut, each_line, too_long};
use sha256::{bytes, follows_standard, hash};
use std::alloc::{AllocError, Global};

const CUTS: [usize; 12] = [0, 1, 4, 55, 56, 63, 64, 65, 127, 128, 129, 65535];

// Whether a message cut at `at` has the expected digest.
fn has_digest(case: &Case, at: usize) -> bool {
    let (head, rest) = cut(case.message.as_slice(), at);
    match hash(head, rest) {
        Some(words) => bytes(words).as_slice() == case.expected.as_slice(),
        None => false,
    }
}

// Whether it has it in one part and in two, however it is cut.
fn at_all_cuts(case: &Case) -> bool {
    CUTS.iter().all(|at| has_digest(case, *at))
}

pub fn nist(heap: Global, text: &str) -> anyhow::Result<Tally> {
    follows_standard();
    each_line(text, |line| Ok(at_all_cuts(&Case::given(heap, line)?)))
}

pub fn lengths(heap: Global, text: &str) -> anyhow::Result<Tally> {
    each_line(text, |line| Ok(at_all_cuts(&Case::of_length(heap, line)?)))
}

pub fn refused(heap: Global) -> Result<Tally, AllocError> {
    too_long(heap, |head, rest| hash(head, rest).is_none())
}
