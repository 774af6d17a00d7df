// SipHash-2-4: the authors' 64 test values, under the key 00 01 .. 0f, of the strings of n bytes 00 01 .. for n from 0 to 63.
// Each value is written low byte first, as in their table; Rust's SipHasher and openssl give the same ones.
use crate::data::{Tally, cut, pattern, unhex};
use siphash::siphash;
use std::alloc::Global;

const KEY: [u8; 16] = [0, 1, 2, 3, 4, 5, 6, 7, 8, 9, 10, 11, 12, 13, 14, 15];

// Whether the string cut at `at` has the expected value.
fn has_value(message: &[u8], at: usize, expected: &[u8]) -> bool {
    let (head, rest) = cut(message, at);
    siphash(&KEY, head, rest).to_le_bytes().as_slice() == expected
}

// Whether it has it in one part and in two, at every cut.
fn at_all_cuts(message: &[u8], expected: &[u8]) -> bool {
    (0..=message.len()).all(|at| has_value(message, at, expected))
}

pub fn authors(heap: Global, text: &str) -> anyhow::Result<Tally> {
    let mut tally = Tally::default();
    for (n, line) in text.lines().enumerate() {
        let message = pattern(heap, n)?;
        let expected = unhex(heap, line)?;
        tally.count(at_all_cuts(message.as_slice(), expected.as_slice()));
    }
    Ok(tally)
}
