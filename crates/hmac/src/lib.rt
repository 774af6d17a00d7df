// HMAC-SHA-256 as RFC 2104 defines it, under a key of thirty-two bytes and over a text handed in as two parts.
#![tactic(auto)]

ghost use Rattle.std.specs.Prelude.{◌≡◌, List, ◌++◌, take, replicate};
ghost use Rattle.hmac.specs.Hmac.{Coded, Keyed, ◌⊕◌, filled, ipad, opad};

use sha256::{bytes, hash_behind};

// The exclusive or of each byte of a block with one byte.
fn mask(block: &mut [u8], x: u8)
    ensures { block.new ≡ block.old ⊕ x }
{
    for b in block.iter_mut() {
        *b = x ^ *b;
    }
}

// Lays the key at the front of a block of zeros.
fn lay_key(block: &mut [u8], key: &[u8; 32])
    requires { block.old ≡ replicate 64 0 }
    ensures { block.new ≡ filled key.now }
{
    block[..32].copy_from_slice(key);
}

// The hash of the key block under a mask and the two parts.
fn keyed(key: &[u8; 32], x: u8, head: &[u8], rest: &[u8]) -> Option<[u8; 32]>
    ensures { Keyed key.now x (head.now ++ rest.now) result }
{
    let mut block = [0; 64];
    lay_key(&mut block, key);
    mask(&mut block, x);
    Some(bytes(hash_behind(&block, head, rest)?))
}

fn inner(key: &[u8; 32], head: &[u8], rest: &[u8]) -> Option<[u8; 32]>
    ensures { Keyed key.now ipad (head.now ++ rest.now) result }
{
    keyed(key, 0x36, head, rest)
}

fn outer(key: &[u8; 32], digest: &[u8; 32]) -> Option<[u8; 32]>
    ensures { Keyed key.now opad digest.now result }
{
    keyed(key, 0x5c, &[], digest)
}

// HMAC-SHA-256 of head followed by rest; None where they have more than 65,535 bytes in all.
pub fn hmac(key: &[u8; 32], head: &[u8], rest: &[u8]) -> Option<[u8; 32]>
    ensures { Coded (λ t. t) key.now (head.now ++ rest.now) result }
{
    outer(key, &inner(key, head, rest)?)
}

// The first sixteen bytes of HMAC-SHA-256.
pub fn tag(key: &[u8; 32], head: &[u8], rest: &[u8]) -> Option<[u8; 16]>
    ensures { Coded (take 16) key.now (head.now ++ rest.now) result }
{
    let whole = hmac(key, head, rest)?;
    let mut first = [0u8; 16];
    first.copy_from_slice(&whole[..16]);
    Some(first)
}
