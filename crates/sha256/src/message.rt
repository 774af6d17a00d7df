// The hash of a message: its full blocks, the block that joins its two parts, and the padded end.
ghost use Rattle.std.specs.Prelude.{◌≡◌, ℕ, ◌+◌, ◌-◌, ◌*◌, ◌/◌, ◌%◌, ◌<◌, ◌≤◌, List, ◌∷◌, ◌++◌, length, take, replicate};
ghost use Rattle.sha256.specs.Hash.{Hashed, HashedBehind, Taken, after, after_all};
ghost use Rattle.sha256.specs.Laws.{Digests, Pads, Parses, Primes, Schedules};
ghost use Rattle.sha256.specs.Padding.{big_endian, bytes_of, padding};

use crate::block::compress;
use crate::constants::start;

// The longest message, in bytes.
const LONGEST: usize = 65535;

// The length of n bytes in bits, as eight bytes, the high byte first.
fn length_bytes(n: usize) -> [u8; 8]
    requires { n ≤ 131072 }
    ensures { result ≡ big_endian 8 (8 * n) }
{
    (8 * n as u64).to_be_bytes()
}

// Lays the last bytes, the byte 128, zero bytes and the length of n bytes up to `end`.
fn lay_end(last: &mut [u8], rest: &[u8], end: usize, n: usize)
    requires blank { last.old ≡ replicate 128 0 }
    requires low { length rest.now + 9 ≤ end }
    requires high { end ≤ 128 }
    requires short { n ≤ 131072 }
    ensures { take end last.new ≡ rest.now ++ (128 ∷ replicate (end - 9 - length rest.now) 0 ++ big_endian 8 (8 * n)) }
{
    let r = rest.len();
    last[..r].copy_from_slice(rest);
    last[r] = 0x80;
    last[end - 8..end].copy_from_slice(&length_bytes(n));
}

// The hash value over the last n % 64 bytes of a message of n bytes, padded to one block or to two.
fn finish(h: [u32; 8], rest: &[u8], n: usize) -> [u32; 8]
    requires left { length rest.now ≡ n % 64 }
    requires short { n ≤ 131072 }
    ensures { result ≡ after_all h (rest.now ++ padding n) }
{
    let mut last = [0u8; 128];
    if rest.len() < 56 {
        lay_end(&mut last, rest, 64, n);
        compress(h, &last[0..64])
    } else {
        lay_end(&mut last, rest, 128, n);
        let s = compress(h, &last[0..64]);
        compress(s, &last[64..128])
    }
}

// The hash value after the full blocks of m.
fn absorb(start: [u32; 8], m: &[u8]) -> [u32; 8]
    ensures { result ≡ after start m.now (length m.now / 64) }
{
    let mut h = start;
    for block in m.chunks_exact(64) {
        // Through a name: the prover follows no array from a call straight into one that a loop keeps.
        let next = compress(h, block);
        h = next;
    }
    h
}

// The hash value over m and the padding, where m ends a message of n bytes and starts at one of its blocks.
fn hash_after(start: [u32; 8], m: &[u8], n: usize) -> [u32; 8]
    requires left { length m.now % 64 ≡ n % 64 }
    requires short { n ≤ 131072 }
    ensures { result ≡ after_all start (m.now ++ padding n) }
{
    let full = m.len() / 64;
    let h = absorb(start, m);
    finish(h, &m[64 * full..], n)
}

// Lays one string behind the other at the front of a block.
fn join(bytes: &mut [u8], head: &[u8], rest: &[u8])
    requires { length head.now + length rest.now ≤ length bytes.old }
    ensures { take (length head.now + length rest.now) bytes.new ≡ head.now ++ rest.now }
{
    let a = head.len();
    let b = a + rest.len();
    bytes[..a].copy_from_slice(head);
    bytes[a..b].copy_from_slice(rest);
}

// How many bytes are missing behind tail to fill its block.
fn missing(tail: &[u8]) -> usize
    requires { length tail.now < 64 }
    ensures { length tail.now + result ≡ 64 }
{
    64 - tail.len()
}

// The hash value over tail, rest and the padding, where tail is shorter than a block.
fn hash_joined(h: [u32; 8], tail: &[u8], rest: &[u8], n: usize) -> [u32; 8]
    requires tail { length tail.now < 64 }
    requires left { (length tail.now + length rest.now) % 64 ≡ n % 64 }
    requires short { n ≤ 131072 }
    ensures { result ≡ after_all h ((tail.now ++ rest.now) ++ padding n) }
{
    let room = missing(tail);
    let mut bytes = [0u8; 64];
    if rest.len() < room {
        join(&mut bytes, tail, rest);
        finish(h, &bytes[..tail.len() + rest.len()], n)
    } else {
        join(&mut bytes, tail, &rest[..room]);
        let s = compress(h, &bytes);
        hash_after(s, &rest[room..], n)
    }
}

// The hash value over head, rest and the padding, where `before` bytes, whole blocks, went into `start` ahead of them.
fn hash_parts(start: [u32; 8], head: &[u8], rest: &[u8], before: usize) -> [u32; 8]
    requires whole { before % 64 ≡ 0 }
    requires short { before + length head.now + length rest.now ≤ 131072 }
    ensures { result ≡ after_all start ((head.now ++ rest.now) ++ padding (before + length head.now + length rest.now)) }
{
    let full = head.len() / 64;
    let h = absorb(start, head);
    hash_joined(
        h,
        &head[64 * full..],
        rest,
        before + head.len() + rest.len(),
    )
}

// Whether a message in two parts is short enough, at most 65,535 bytes in all.
fn taken(head: &[u8], rest: &[u8]) -> bool
    ensures { Taken (length head.now + length rest.now) result }
{
    head.len().saturating_add(rest.len()) <= LONGEST
}

// SHA-256 of head followed by rest; None where they have more than 65,535 bytes in all.
pub fn hash(head: &[u8], rest: &[u8]) -> Option<[u32; 8]>
    ensures { Hashed (head.now ++ rest.now) result }
{
    if !taken(head, rest) {
        return None;
    }
    Some(hash_parts(start(), head, rest, 0))
}

// SHA-256 of one block, head and rest in turn; None where head and rest have more than 65,535 bytes in all.
// For a keyed hash, whose key fills the first block.
pub fn hash_behind(first: &[u8; 64], head: &[u8], rest: &[u8]) -> Option<[u32; 8]>
    ensures { HashedBehind first.now (head.now ++ rest.now) result }
{
    if !taken(head, rest) {
        return None;
    }
    let h = compress(start(), first);
    Some(hash_parts(h, head, rest, 64))
}

// A digest's eight words as its thirty-two bytes.
pub fn bytes(words: [u32; 8]) -> [u8; 32]
    ensures { result ≡ bytes_of words }
{
    let mut out = [0; 32];
    out.copy_from_slice(words.map(u32::to_be_bytes).as_flattened());
    out
}

// Nothing to run: its contract is what the standard says of the primes, the schedule, the padding and the digest.
pub fn follows_standard()
    ensures primes { Primes }
    ensures schedules { Schedules }
    ensures pads { Pads }
    ensures parses { Parses }
    ensures digests { Digests }
{}
