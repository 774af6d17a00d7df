// How shares are put to an entry, counted and read.
ghost use Rattle.std.specs.Prelude.{◌≡◌, ℕ, take, None};
ghost use Rattle.entry.specs.Bodies.{entry_body, sealed_body};
ghost use Rattle.window.specs.Shares.{pairs_of, shares_of};
ghost use Rattle.window.specs.Windows.{AddedTo, tag_of};

use super::Slot;
use entry::parts::{Entry, Pair, SealedEntry};

impl Slot {
    pub fn new(entry: Entry) -> Slot
        ensures entry { result.entry ≡ entry }
        ensures none { (s : ℕ) → tag_of result s ≡ None }
    {
        Slot {
            entry,
            tags: [None; 16],
        }
    }

    // The tag that a signer sent, if it did.
    pub fn tag(&self, signer: u8) -> Option<[u8; 16]>
        ensures { result ≡ tag_of self.now signer }
    {
        self.tags.get(usize::from(signer)).copied().flatten()
    }

    // How many signers sent a share.
    pub fn shares(&self) -> u8
        ensures { result ≡ shares_of (tag_of self.now) }
    {
        let mut count = 0;
        // A loop: `filter` and `count` take three times the instructions, and a proof asks 32 times.
        for tag in &self.tags {
            if tag.is_some() {
                count += 1;
            }
        }
        count
    }

    // The share of a signer, in the place of one that it sent before.
    pub fn add(&mut self, pair: Pair)
        ensures { AddedTo self.old self.new pair.signer pair.tag }
    {
        if pair.signer < 16 {
            self.tags[pair.signer as usize] = Some(pair.tag);
        }
    }

    // The entry with its shares in order of signer, the first six where there are more.
    pub fn sealed(&self) -> SealedEntry
        ensures { sealed_body result ≡ record { entry = entry_body self.now.entry; pairs = take 6 (pairs_of (tag_of self.now)) } }
    {
        let mut sealed = SealedEntry::new(self.entry);
        for (s, tag) in self.tags.iter().enumerate() {
            if let Some(tag) = tag {
                let _ = sealed.push(Pair::new(s as u8, *tag));
            }
        }
        sealed
    }
}
