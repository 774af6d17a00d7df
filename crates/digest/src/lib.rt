// The digest interface, with SHA-256 and 64-bit FNV-1a behind it.
// A string is handed in as two parts, so that a label can be put before a frame without copying the frame.
#![tactic(auto)]

ghost use Rattle.std.specs.Prelude.{◌≡◌, ℕ, ◌+◌, ◌*◌, ◌≤◌, List, ◌++◌, length, Decides};
ghost use Rattle.std.proofs.Math.Path.{refl};
ghost use Rattle.digest.specs.Fnv.{fnv_words, hashed};
ghost use Rattle.digest.specs.Sha.{sha_words, wide};
ghost use Rattle.digest.specs.Meaning.{Answers, bytes_by, longest, written};

use fault::{Cause, Fault, Layer};
use sha256::hash;

// The longest string that is digested.
const LONGEST: usize = 65535;

const TOO_LONG: Fault = Fault {
    cause: Cause::Malformed,
    layer: Layer::Frame,
    place: 65535,
};

// Whether head and then rest are no longer than a string may be.
pub fn fits(head: &[u8], rest: &[u8]) -> bool
    ensures { Decides result (length (head.now ++ rest.now) ≤ longest) }
{
    head.len().saturating_add(rest.len()) <= LONGEST
}

// A digest: its meaning is one function from byte strings to four words of 64 bits.
pub trait Digest {
    ghost of: { List ℕ → List ℕ };

    // The four words of head and then rest.
    fn words(&self, head: &[u8], rest: &[u8]) -> Result<[u64; 4], Fault>
        ensures { Answers of (head.now ++ rest.now) result };

    // The same, written as 32 bytes.
    fn digest(&self, head: &[u8], rest: &[u8]) -> Result<[u8; 32], Fault>
        ensures { Answers (bytes_by of) (head.now ++ rest.now) result }
    {
        Ok(write_words(self.words(head, rest)?))
    }

    ghost four: { (m : List ℕ) → length (of m) ≡ 4 };
}

// The words as bytes, each high byte first.
pub fn write_words(words: [u64; 4]) -> [u8; 32]
    ensures { result ≡ written words }
{
    let mut out = [0; 32];
    out.copy_from_slice(words.map(u64::to_be_bytes).as_flattened());
    out
}

// 64-bit FNV-1a, then the length, then two zero words: quick, and no match for a hostile client.
#[derive(Clone, Copy)]
pub struct Fnv;

fn fold(start: u64, bytes: &[u8]) -> u64
    ensures { result ≡ hashed start bytes.now }
{
    let mut hash = start;
    // A loop: what `bytes.iter().fold(..)` answers was tried and stayed unproved.
    for b in bytes {
        hash = (hash ^ u64::from(*b)).wrapping_mul(1099511628211);
    }
    hash
}

impl Digest for Fnv {
    ghost of = { fnv_words };

    ghost four = { unfold fnv_words in λ m. refl };

    fn words(&self, head: &[u8], rest: &[u8]) -> Result<[u64; 4], Fault> {
        if !fits(head, rest) {
            return Err(TOO_LONG);
        }
        let length = head.len() as u64 + rest.len() as u64;
        Ok([fold(fold(14695981039346656037, head), rest), length, 0, 0])
    }
}

// SHA-256, its eight words of 32 bits taken in pairs.
#[derive(Clone, Copy)]
pub struct Sha256;

fn pairs(h: [u32; 8]) -> [u64; 4]
    ensures { result ≡ wide h }
{
    [
        h[0] as u64 * 4294967296 + h[1] as u64,
        h[2] as u64 * 4294967296 + h[3] as u64,
        h[4] as u64 * 4294967296 + h[5] as u64,
        h[6] as u64 * 4294967296 + h[7] as u64,
    ]
}

impl Digest for Sha256 {
    ghost of = { sha_words };

    ghost four = { unfold sha_words in λ m. refl };

    fn words(&self, head: &[u8], rest: &[u8]) -> Result<[u64; 4], Fault> {
        // A match: through `map` and `ok_or` what the words are was tried and stayed unproved.
        match hash(head, rest) {
            Some(h) => Ok(pairs(h)),
            None => Err(TOO_LONG),
        }
    }
}
