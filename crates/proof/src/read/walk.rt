// The entries of a proof that is read in place, found from the front.
ghost use Rattle.std.specs.Prelude.{◌≡◌, ℕ, ◌+◌, ◌≤◌, List, ◌++◌, length};
ghost use Rattle.std.specs.Iterator.{at_most};
ghost use Rattle.octets.specs.Numbers.{limit};
ghost use Rattle.entry.specs.Bodies.{SealedBody, sealed_bytes};
ghost use Rattle.proof.specs.Bodies.{ProofBody, SealedIn};
ghost use Rattle.proof.specs.Parts.{FoundAt, Holds, Inside, PartHolds, There, entry_place};
ghost use Rattle.proof.specs.Turns.{BeforeEntry, GivesEntry};

use super::Proof;
use crate::part::SealedPart;
use octets::{number_at, part};

// The entries of a proof from the front, where the first that is left begins, and how many are left.
#[derive(Drop)]
pub struct Entries<'a> {
    proof: Proof<'a>,
    at: usize,
    left: u32,
}

impl<'a> Iterator for Entries<'a> {
    type Item = SealedPart<'a>;

    ghost next_gives = { GivesEntry };

    ghost remaining = { λ s. at_most s.left };

    fn next(&mut self) -> Option<SealedPart<'a>> {
        if self.left == 0 {
            return None;
        }
        let part = self.proof.sealed_at(self.at)?;
        self.at += part.body.len() + part.pairs.len();
        self.left -= 1;
        Some(part)
    }
}

impl<'a> Proof<'a> {
    // The lowest version.
    pub fn low(self) -> u32
        ensures { (f : ℕ) (b : ProofBody) → Holds f self.entry b → result ≡ b.low }
    {
        self.low
    }

    // The highest version.
    pub fn high(self) -> u32
        ensures { (f : ℕ) (b : ProofBody) → Holds f self.entry b → result ≡ b.high }
    {
        self.high
    }

    // How many entries there are.
    pub fn len(self) -> u32
        ensures { (f : ℕ) (b : ProofBody) → Holds f self.entry b → result ≡ length b.entries }
    {
        if self.high < self.low {
            return 0;
        }
        (self.high - self.low).saturating_add(1)
    }

    // The sealed entry that stands at a place.
    fn sealed_at(self, at: usize) -> Option<SealedPart<'a>>
        ensures inside { Inside (λ x. at + length x.body.now + length x.pairs.now ≤ length self.entry.frame.now) result }
        ensures there { (pre post : List ℕ) (f due : ℕ) (s : SealedBody) → self.entry.f ≡ f → SealedIn f due s → due ≤ limit 2 → self.entry.frame.now ≡ pre ++ (sealed_bytes 2 s ++ post) → length pre ≡ at → at ≤ 1000000 → There (PartHolds f at) s result }
    {
        let n = self.frame.len();
        if at > 1000000 || n < at + 3 {
            return None;
        }
        let body = 3 + 33 * self.frame[at + 2] as usize;
        let pairs = 17 * (self.f as usize + 1);
        if n < at + body + pairs {
            return None;
        }
        Some(SealedPart {
            version: number_at(self.frame, at),
            place: at as u32,
            body: part(self.frame, at, body),
            pairs: part(self.frame, at + body, pairs),
        })
    }

    // The entries, behind the kind and the range.
    pub fn entries(self) -> Entries<'a>
        ensures { (f : ℕ) (b : ProofBody) → Holds f self.entry b → BeforeEntry f b 0 result }
    {
        Entries {
            proof: self,
            at: 5,
            left: self.len(),
        }
    }

    // Entry i of the proof, or none behind the last.
    pub fn entry(self, i: u32) -> Option<SealedPart<'a>>
        ensures { (f : ℕ) (b : ProofBody) → Holds f self.entry b → FoundAt (PartHolds f (entry_place 2 b i)) b.entries i result }
    {
        if i >= self.len() {
            return None;
        }
        self.entries().nth(i as usize)
    }
}
