// SipHash-2-4, the keyed hash of short strings by Aumasson and Bernstein.
// The string comes in two parts, so that a label can stand before a frame without a copy of either.
#![tactic(auto)]

ghost use Rattle.std.specs.Prelude.{◌≡◌, ℕ, ◌+◌, ◌-◌, ◌*◌, ◌/◌, ◌%◌, ◌^◌, ◌<◌, ◌≤◌, List, ◌++◌, length};
ghost use Rattle.siphash.specs.SipHash.{compressed, finalized, first_half, initialized, keyed, little, run, second_half, sip_hash24, sip_round, sip_rounds};

const COMPRESSION_ROUNDS: usize = 2;

const FINALIZATION_ROUNDS: usize = 4;

// The internal state.
#[derive(Clone, Copy)]
struct State {
    v0: u64,
    v1: u64,
    v2: u64,
    v3: u64,
}

fn first_half(s: State) -> State
    ensures { result ≡ first_half s }
{
    let v0 = s.v0.wrapping_add(s.v1);
    let v2 = s.v2.wrapping_add(s.v3);
    let v1 = s.v1.rotate_left(13);
    let v3 = s.v3.rotate_left(16);
    let v1 = v1 ^ v0;
    let v3 = v3 ^ v2;
    let v0 = v0.rotate_left(32);
    State { v0, v1, v2, v3 }
}

fn second_half(s: State) -> State
    ensures { result ≡ second_half s }
{
    let v2 = s.v2.wrapping_add(s.v1);
    let v0 = s.v0.wrapping_add(s.v3);
    let v1 = s.v1.rotate_left(17);
    let v3 = s.v3.rotate_left(21);
    let v1 = v1 ^ v2;
    let v3 = v3 ^ v0;
    let v2 = v2.rotate_left(32);
    State { v0, v1, v2, v3 }
}

fn sip_round(s: State) -> State
    ensures { result ≡ sip_round s }
{
    second_half(first_half(s))
}

fn rounds(start: State, n: usize) -> State
    ensures { result ≡ sip_rounds n start }
{
    let mut s = start;
    for _ in 0..n {
        s = sip_round(s);
    }
    s
}

fn compress(s: State, m: u64) -> State
    ensures { result ≡ compressed 2 m s }
{
    let t = rounds(State { v3: s.v3 ^ m, ..s }, COMPRESSION_ROUNDS);
    State { v0: t.v0 ^ m, ..t }
}

fn finalize(s: State) -> u64
    ensures { result ≡ finalized 4 s }
{
    let t = rounds(
        State {
            v2: s.v2 ^ 0xff,
            ..s
        },
        FINALIZATION_ROUNDS,
    );
    t.v0 ^ t.v1 ^ t.v2 ^ t.v3
}

fn initialize(k0: u64, k1: u64) -> State
    ensures { result ≡ initialized k0 k1 }
{
    State {
        v0: k0 ^ 0x736f_6d65_7073_6575,
        v1: k1 ^ 0x646f_7261_6e64_6f6d,
        v2: k0 ^ 0x6c79_6765_6e65_7261,
        v3: k1 ^ 0x7465_6462_7974_6573,
    }
}

// Eight bytes as a word.
fn word(b: &[u8]) -> u64
    requires { length b.now ≡ 8 }
    ensures { result ≡ little b.now }
{
    u64::from_le_bytes([b[0], b[1], b[2], b[3], b[4], b[5], b[6], b[7]])
}

// The state that a key begins with.
fn begin(key: &[u8; 16]) -> State
    ensures { result ≡ keyed key.now }
{
    initialize(word(&key[..8]), word(&key[8..]))
}

// The length of a string in two parts, as far as the last byte of its last word holds it.
fn length_byte(head: &[u8], rest: &[u8]) -> u64
    ensures { result ≡ (length head.now + length rest.now) % 256 }
{
    ((head.len() + rest.len()) % 256) as u64
}

// The word whose low bytes are b and whose bytes behind these are those of `high`.
fn prefixed(b: &[u8], high: u64) -> u64
    requires size { length b.now ≤ 8 }
    requires room { high < 256 ^ (8 - length b.now) }
    ensures value { (t : List ℕ) → high ≡ little t → result ≡ little (b.now ++ t) }
    ensures bound { (k : ℕ) → high < 256 ^ k → result < 256 ^ (length b.now + k) }
{
    let mut w = high;
    for byte in b.iter().rev() {
        w = w * 256 + u64::from(*byte);
    }
    w
}

// At most eight bytes in two parts, as the low end of a word.
fn joined(a: &[u8], b: &[u8]) -> u64
    requires { length a.now + length b.now ≤ 8 }
    ensures value { result ≡ little (a.now ++ b.now) }
    ensures bound { result < 256 ^ (length a.now + length b.now) }
{
    if b.len() == 8 {
        return word(b);
    }
    prefixed(a, prefixed(b, 0))
}

// The states after the words of m, of which there are no bytes left over.
fn absorb(start: State, m: &[u8]) -> State
    requires { length m.now % 8 ≡ 0 }
    ensures { result ≡ run 2 start m.now (length m.now / 8) }
{
    let mut s = start;
    for block in m.chunks_exact(8) {
        s = compress(s, word(block));
    }
    s
}

// The last word: the at most seven bytes left over, in two parts, and the length modulo 256.
fn last_word(a: &[u8], b: &[u8], len: u64) -> u64
    requires size { length a.now + length b.now ≤ 7 }
    requires byte { len < 256 }
    ensures { result ≡ little (a.now ++ b.now) + len * 256 ^ 7 }
{
    joined(a, b) + (len << 56)
}

// SipHash-2-4 of the string `head` and then `rest`.
pub fn siphash(key: &[u8; 16], head: &[u8], rest: &[u8]) -> u64
    ensures { result ≡ sip_hash24 key.now (head.now ++ rest.now) }
{
    let len = length_byte(head, rest);
    let (whole, left) = head.split_at(head.len() / 8 * 8);
    let s = absorb(begin(key), whole);
    if left.len() + rest.len() < 8 {
        return finalize(compress(s, last_word(left, rest, len)));
    }
    let (fill, more) = rest.split_at(8 - left.len());
    let s = compress(s, joined(left, fill));
    let (whole, tail) = more.split_at(more.len() / 8 * 8);
    finalize(compress(absorb(s, whole), last_word(tail, &[], len)))
}
