// The parts of an entry, in memory of a fixed size.
ghost use Rattle.std.specs.Prelude.{◌≡◌, ◌≤◌, length};
ghost use Rattle.octets.specs.Numbers.{limit};

pub mod make;
pub mod write;

use inline_vec::InlineVec;

// One write of an entry.
#[derive(Clone, Copy)]
pub struct ItemDigest {
    pub item: u8,
    pub digest: [u8; 32],
    ghost whole: { length digest ≡ 32 },
}

// A share: a board's tag over an entry.
#[derive(Clone, Copy)]
pub struct Pair {
    pub signer: u8,
    pub tag: [u8; 16],
    ghost whole: { length tag ≡ 16 },
}

// A version and up to eight writes.
#[derive(Clone, Copy)]
pub struct Entry {
    version: u32,
    items: InlineVec<ItemDigest, 8>,
    ghost fits: { version ≤ limit 2 },
}

// An entry with up to six shares.
#[derive(Clone, Copy)]
pub struct SealedEntry {
    entry: Entry,
    pairs: InlineVec<Pair, 6>,
}
