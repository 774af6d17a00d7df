// One block: its message schedule and the sixty-four rounds.
ghost use Rattle.std.specs.Prelude.{◌≡◌, ◌+◌, ◌*◌, ◌<◌, ◌≤◌, length};
ghost use Rattle.sha256.specs.Block.{M, added, compressed, next, round};

use crate::constants::round_constant;
use crate::functions::{big_sigma0, big_sigma1, choose, majority, small_sigma0, small_sigma1};

// A word of the block itself.
fn own_word(bytes: &[u8], t: usize) -> u32
    requires { 4 * t + 3 < length bytes.now }
    ensures { result ≡ M bytes.now t }
{
    let i = 4 * t;
    u32::from_be_bytes([bytes[i], bytes[i + 1], bytes[i + 2], bytes[i + 3]])
}

// A word that follows from four earlier ones.
fn next_word(w: &[u32], t: usize) -> u32
    requires low { 16 ≤ t }
    requires high { t < length w.now }
    ensures { result ≡ next w.now t }
{
    small_sigma1(w[t - 2])
        .wrapping_add(w[t - 7])
        .wrapping_add(small_sigma0(w[t - 15]))
        .wrapping_add(w[t - 16])
}

fn one_round(s: [u32; 8], k: u32, w: u32) -> [u32; 8]
    ensures { result ≡ round k w s }
{
    let [a, b, c, d, e, f, g, h] = s;
    let t1 = h
        .wrapping_add(big_sigma1(e))
        .wrapping_add(choose(e, f, g))
        .wrapping_add(k)
        .wrapping_add(w);
    let t2 = big_sigma0(a).wrapping_add(majority(a, b, c));
    [t1.wrapping_add(t2), a, b, c, d.wrapping_add(t1), e, f, g]
}

fn add_words(s: [u32; 8], h: [u32; 8]) -> [u32; 8]
    ensures { result ≡ added s h }
{
    std::array::from_fn(|i| s[i].wrapping_add(h[i]))
}

// The hash value after one more block.
pub(crate) fn compress(h: [u32; 8], bytes: &[u8]) -> [u32; 8]
    requires { length bytes.now ≡ 64 }
    ensures { result ≡ compressed h bytes.now }
{
    let mut w = [0u32; 64];
    let mut s = h;
    // By number: a word reads earlier words of the table that this loop fills.
    for t in 0..64 {
        let x = if t < 16 {
            own_word(bytes, t)
        } else {
            next_word(&w, t)
        };
        w[t] = x;
        // Through a name: the prover follows no array from a call straight into one that a loop keeps.
        let turned = one_round(s, round_constant(t), x);
        s = turned;
    }
    add_words(s, h)
}
