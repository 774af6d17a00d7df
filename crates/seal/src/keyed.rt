// The seal over 32 keys by an algorithm of one key.
ghost use Rattle.std.specs.Prelude.{◌≡◌, ℕ, ◌<◌, ◌≤◌, List, [], ◌++◌, length, MatchOption, slice_index_or};

use crate::{Seal, TOO_LONG, key_place};
use fault::Fault;
use std::marker::PhantomData;

// How one key makes a tag; None where the string is too long.
pub trait Algorithm {
    ghost tag: { List ℕ → List ℕ → List ℕ };

    fn tag(key: &[u8; 32], head: &[u8], rest: &[u8]) -> Option<[u8; 16]>
        ensures { MatchOption result (65535 < length (head.now ++ rest.now)) (λ t. (length (head.now ++ rest.now) ≤ 65535) × (t ≡ tag key.now (head.now ++ rest.now))) };

    ghost sixteen: { (k : List ℕ) (m : List ℕ) → length (tag k m) ≡ 16 };
}

// The keys of the 32 signers.
#[derive(Clone, Copy)]
pub struct KeyedSeal<A> {
    keys: [[u8; 32]; 32],
    algorithm: PhantomData<A>,
}

impl<A> KeyedSeal<A> {
    pub fn new(keys: [[u8; 32]; 32]) -> KeyedSeal<A>
        ensures { result.keys ≡ keys }
    {
        KeyedSeal {
            keys,
            algorithm: PhantomData,
        }
    }
}

impl<A: Algorithm> Seal for KeyedSeal<A> {
    ghost tag = { λ s i m. A.tag (slice_index_or s.keys i []) m };

    ghost sixteen = { λ s i m. A.sixteen (slice_index_or s.keys i []) m };

    fn make(&self, signer: u8, head: &[u8], rest: &[u8]) -> Result<[u8; 16], Fault> {
        let i = key_place(signer)?;
        A::tag(&self.keys[i], head, rest).ok_or(TOO_LONG)
    }
}
