// The entries in their places.
ghost use Rattle.std.specs.Prelude.{◌≡◌, ℕ, ◌%◌, ◌≤◌, [], length, take, is_some, None};
ghost use Rattle.entry.specs.Bodies.{entry_body, sealed_body};
ghost use Rattle.window.specs.Shares.{Rise};
ghost use Rattle.window.specs.Windows.{Added, Kept, entry_in, pairs_in, shares_in, slot_in, tag_in};

use crate::slot::Slot;
use entry::parts::{Entry, Pair, SealedEntry};

#[derive(Clone, Copy)]
pub struct Window {
    slots: [Slot; 32],
}

// Where the entry of a version stands: 32 versions apart share a place.
fn place(version: u32) -> usize
    ensures { result ≡ version % 32 }
{
    version as usize % 32
}

impl Window {
    // What stands in the place of a version.
    fn slot(&self, version: u32) -> &Slot
        ensures { result.now ≡ slot_in self.now version }
    {
        &self.slots[place(version)]
    }

    // No entry is kept: every place has version 0, no writes and no shares.
    pub fn new() -> Window
        ensures entries { (v : ℕ) → entry_in result v ≡ record { version = 0; items = [] } }
        ensures shares { (v s : ℕ) → tag_in result v s ≡ None }
    {
        let none = match Entry::new(0) {
            Some(entry) => Slot::new(entry),
            None => unreachable(),
        };
        Window { slots: [none; 32] }
    }

    // Keeps a new entry, with no shares, in the place of the one of 32 versions before.
    pub fn keep(&mut self, entry: Entry)
        ensures { Kept self.old self.new entry }
    {
        self.slots[place(entry.version())] = Slot::new(entry);
    }

    pub fn entry(&self, version: u32) -> Entry
        ensures { (result ≡ (slot_in self.now version).entry) × (entry_body result ≡ entry_in self.now version) }
    {
        self.slot(version).entry
    }

    // Whether a signer's share is there.
    pub fn has(&self, version: u32, signer: u8) -> bool
        ensures { result ≡ is_some (tag_in self.now version signer) }
    {
        self.slot(version).tag(signer).is_some()
    }

    // The tag of a signer's share, if it is there.
    pub fn tag(&self, version: u32, signer: u8) -> Option<[u8; 16]>
        ensures { result ≡ tag_in self.now version signer }
    {
        self.slot(version).tag(signer)
    }

    // How many shares there are.
    pub fn shares(&self, version: u32) -> u8
        ensures count { result ≡ shares_in self.now version }
        ensures pairs { result ≡ length (pairs_in self.now version) }
        ensures few { result ≤ 16 }
    {
        self.slot(version).shares()
    }

    // Adds a share to its entry and answers how many the entry now has. No other entry changes.
    pub fn add(&mut self, version: u32, pair: Pair) -> u8
        ensures { Added self.old self.new version pair.signer pair.tag result }
    {
        let slot = &mut self.slots[place(version)];
        slot.add(pair);
        slot.shares()
    }

    // The entry with its shares in order of signer, the first six where there are more.
    pub fn sealed(&self, version: u32) -> SealedEntry
        ensures six { sealed_body result ≡ record { entry = entry_in self.now version; pairs = take 6 (pairs_in self.now version) } }
        ensures all { shares_in self.now version ≤ 6 → (sealed_body result).pairs ≡ pairs_in self.now version }
        ensures rise { Rise (pairs_in self.now version) }
    {
        self.slot(version).sealed()
    }
}
