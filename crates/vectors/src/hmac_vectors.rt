// HMAC-SHA-256: the cases of RFC 4231 whose key fits into 32 bytes, and every length around one and two blocks.
// Zeros behind a shorter key give the same code. Cases 6 and 7 have keys of 131 bytes, which a key of 32 bytes cannot stand for.
use crate::data::{Case, Tally, cut, each_line, fields, too_long, unhex};
use hmac::{hmac, tag};
use std::alloc::{AllocError, Global};
use std::array;

const CUTS: [usize; 8] = [0, 1, 4, 63, 64, 65, 128, 65535];

// A key of at most 32 bytes with zeros behind it.
fn key_of(given: &[u8]) -> [u8; 32] {
    let mut key = [0; 32];
    for (byte, g) in key.iter_mut().zip(given) {
        *byte = *g;
    }
    key
}

// Whether the text cut at `at` has the expected code, which may be given by its first 16 bytes alone.
fn has_code(key: &[u8; 32], case: &Case, at: usize) -> bool {
    let (head, rest) = cut(case.message.as_slice(), at);
    let (Some(code), Some(first)) = (hmac(key, head, rest), tag(key, head, rest)) else {
        return false;
    };
    let expected = case.expected.as_slice();
    code.starts_with(expected) && expected.starts_with(&first)
}

fn at_all_cuts(key: &[u8; 32], case: &Case) -> bool {
    CUTS.iter().all(|at| has_code(key, case, *at))
}

// A line is the key, the message and its code.
pub fn rfc4231(heap: Global, text: &str) -> anyhow::Result<Tally> {
    each_line(text, |line| {
        let (key, others) = fields(line)?;
        let (message, code) = fields(others)?;
        let key = key_of(unhex(heap, key)?.as_slice());
        let case = Case::written(heap, message, code)?;
        Ok(at_all_cuts(&key, &case))
    })
}

// The key of the lengths: byte i is 7 i + 1.
fn rising_key() -> [u8; 32] {
    array::from_fn(|i| (7 * i + 1) as u8)
}

pub fn lengths(heap: Global, text: &str) -> anyhow::Result<Tally> {
    let key = rising_key();
    each_line(text, |line| {
        Ok(at_all_cuts(&key, &Case::of_length(heap, line)?))
    })
}

pub fn refused(heap: Global) -> Result<Tally, AllocError> {
    let key = rising_key();
    too_long(heap, |head, rest| {
        hmac(&key, head, rest).is_none() && tag(&key, head, rest).is_none()
    })
}
