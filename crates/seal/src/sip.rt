// The seal by SipHash-2-4: fast, and its tags have 64 bits that count.
ghost use Rattle.std.specs.Prelude.{◌≡◌, List, ◌++◌, take, replicate};
ghost use Rattle.seal.specs.Sip.{low_first, sip_tag};
ghost use Rattle.std.proofs.Common.{rules};

use crate::keyed::{Algorithm, KeyedSeal};
use crate::{LONGEST, whole_length};
use siphash::siphash;

#[derive(Clone, Copy)]
pub struct Sip;

pub type SipSeal = KeyedSeal<Sip>;

fn first_half(key: &[u8; 32]) -> [u8; 16]
    ensures { result ≡ take 16 key.now }
{
    let mut half = [0; 16];
    half.copy_from_slice(&key[..16]);
    half
}

// A word as a tag.
fn widened(x: u64) -> [u8; 16]
    ensures { result ≡ low_first x ++ replicate 8 0 }
{
    let [a, b, c, d, e, f, g, h] = x.to_le_bytes();
    [a, b, c, d, e, f, g, h, 0, 0, 0, 0, 0, 0, 0, 0]
}

fn sip_tag(key: &[u8; 32], head: &[u8], rest: &[u8]) -> [u8; 16]
    ensures { result ≡ sip_tag key.now (head.now ++ rest.now) }
{
    let half = first_half(key);
    widened(siphash(&half, head, rest))
}

impl Algorithm for Sip {
    ghost tag = { sip_tag };

    ghost sixteen = { Prim.search rules };

    fn tag(key: &[u8; 32], head: &[u8], rest: &[u8]) -> Option<[u8; 16]> {
        if whole_length(head, rest) > LONGEST {
            return None;
        }
        Some(sip_tag(key, head, rest))
    }
}
