// Entries as bytes in a caller's buffer: what is sealed, chained and laid into proofs.
ghost use Rattle.std.specs.Prelude.{◌≡◌, ◌+◌, ◌*◌, ◌≤◌, map, length};
ghost use Rattle.std.specs.List.{flat_map};
ghost use Rattle.octets.specs.Numbers.{limit};
ghost use Rattle.octets.specs.Parts.{over};
ghost use Rattle.entry.specs.Bodies.{entry_body, entry_bytes, head_bytes, item_body, item_bytes, pair_body, pair_bytes, sealed_body, sealed_bytes};
ghost use Rattle.entry.specs.Written.{BodyWritten};

use super::{Entry, ItemDigest, Pair, SealedEntry};
use octets::put_number;
use record::piece::{Piece, put_all};

// A write: the item and the digest.
impl Piece for ItemDigest {
    ghost bytes = { λ i. item_bytes (item_body i) };

    ghost ready = { λ _. Unit {0} };

    fn size(self) -> usize {
        33
    }

    fn put(self, out: &mut [u8]) {
        out[0] = self.item;
        out[1..33].copy_from_slice(&self.digest);
    }
}

// A share: the signer and the tag.
impl Piece for Pair {
    ghost bytes = { λ p. pair_bytes (pair_body p) };

    ghost ready = { λ _. Unit {0} };

    fn size(self) -> usize {
        17
    }

    fn put(self, out: &mut [u8]) {
        out[0] = self.signer;
        out[1..17].copy_from_slice(&self.tag);
    }
}

// Puts a body's version and count to the front of a buffer.
fn put_head(version: u32, count: u8, out: &mut [u8])
    requires { (version ≤ limit 2) × (3 ≤ length out.old) }
    ensures { out.new ≡ over (head_bytes 2 version count) out.old }
{
    put_number(version, out);
    out[2] = count;
}

impl Entry {
    // The writes.
    pub fn items(&self) -> &[ItemDigest]
        ensures { (map item_body result.now ≡ (entry_body self.now).items) × (length result.now ≤ 8) }
    {
        self.items.as_slice()
    }

    // How many bytes the body takes.
    pub fn body_length(&self) -> usize
        ensures { (result ≡ length (entry_bytes 2 (entry_body self.now))) × (result ≤ 267) }
    {
        3 + 33 * self.items.len()
    }

    // Puts the body to the front of a buffer and answers its length; none, and nothing changed, where it has no room.
    pub fn write_body(&self, out: &mut [u8]) -> Option<usize>
        ensures { BodyWritten (entry_bytes 2 (entry_body self.now)) out.old out.new result }
    {
        let n = self.body_length();
        if out.len() < n {
            return None;
        }
        put_head(self.version, self.len(), out);
        put_all(self.items(), &mut out[3..]);
        Some(n)
    }
}

impl SealedEntry {
    // The shares.
    pub fn pairs(&self) -> &[Pair]
        ensures { (map pair_body result.now ≡ (sealed_body self.now).pairs) × (length result.now ≤ 6) }
    {
        self.pairs.as_slice()
    }

    // How many bytes the entry takes with its shares.
    pub fn length(&self) -> usize
        ensures { (result ≡ length (sealed_bytes 2 (sealed_body self.now))) × (result ≤ 369) }
    {
        self.entry.body_length() + 17 * self.pairs.len()
    }
}

// An entry with its shares.
impl Piece for SealedEntry {
    ghost bytes = { λ s. sealed_bytes 2 (sealed_body s) };

    ghost ready = { λ _. Unit {0} };

    fn size(self) -> usize {
        self.length()
    }

    fn put(self, out: &mut [u8]) {
        if let Some(n) = self.entry.write_body(out) {
            put_all(self.pairs(), &mut out[n..]);
        }
    }
}
