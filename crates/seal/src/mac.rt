// The seal by HMAC-SHA-256: its tags have 128 bits that count.
ghost use Rattle.seal.specs.Mac.{hmac_tag};
ghost use Rattle.hmac.proofs.Codes.{length-tag};

use crate::keyed::{Algorithm, KeyedSeal};

#[derive(Clone, Copy)]
pub struct Hmac;

pub type HmacSeal = KeyedSeal<Hmac>;

impl Algorithm for Hmac {
    ghost tag = { hmac_tag };

    ghost sixteen = { λ k m. length-tag k m };

    fn tag(key: &[u8; 32], head: &[u8], rest: &[u8]) -> Option<[u8; 16]> {
        hmac::tag(key, head, rest)
    }
}
