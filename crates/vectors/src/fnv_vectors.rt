// FNV-1a with 64 bits: test values that its authors publish, as digests of four words.
use crate::data::{Case, Tally, each_line, pattern};
use digest::{Digest, Fnv};
use std::alloc::Global;

// Whether the digest is the hash, the length and two zero words.
fn is_digested(case: &Case) -> bool {
    let length = case.message.len() as u64;
    let hash = case.expected.as_slice();
    match Fnv.digest(&[], case.message.as_slice()) {
        Ok(digest) => {
            digest[..8] == hash[..]
                && digest[8..16] == length.to_be_bytes()[..]
                && digest[16..] == [0; 16][..]
        }
        Err(_) => false,
    }
}

// A line is the message and its hash.
pub fn authors(heap: Global, text: &str) -> anyhow::Result<Tally> {
    each_line(text, |line| Ok(is_digested(&Case::given(heap, line)?)))
}

// A string of 65,535 bytes is taken, one byte more is refused.
pub fn refused(heap: Global) -> anyhow::Result<Tally> {
    let mut tally = Tally::default();
    let longest = pattern(heap, 65535)?;
    tally.count(Fnv.digest(&[], longest.as_slice()).is_ok());
    tally.count(Fnv.digest(b"1", longest.as_slice()).is_err());
    Ok(tally)
}
