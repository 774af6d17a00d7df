// The proofs of a wrong board: the board inside proves, and the bytes are changed in the way chosen.
use super::{EVICTED, FORGED_ITEM, FORGED_VALUE, REFUSED, Wrong};
use crate::patch::put;
use crate::ways::Way;
use digest::Digest;
use fault::{Cause, Fault, Layer};
use proof::part::SealedPart;
use proof::read::read_proof;
use seal::Seal;

// The longest proof, and the bytes of a pair of signer and tag.
const LONGEST: usize = 11813;

const PAIR: usize = 17;

// Puts tags that nobody made.
fn invent_tags(part: SealedPart<'_>, frame: &mut [u8]) {
    for pair in part.pairs() {
        put(frame, pair.place as usize, &[165; 16]);
    }
}

// Puts the first pair in place of the second.
fn repeat_pair(part: SealedPart<'_>, pairs_at: usize, frame: &mut [u8]) {
    if part.pairs.len() >= PAIR {
        put(frame, pairs_at.saturating_add(PAIR), &part.pairs[0..PAIR]);
    }
}

// Puts another digest for the item that is forged.
fn forge_digest(part: SealedPart<'_>, digest: &[u8], frame: &mut [u8]) {
    let forged = part.items().position(|write| write.item == FORGED_ITEM);
    if let Some(k) = forged {
        let at = (part.place as usize).saturating_add(k.saturating_mul(33).saturating_add(4));
        put(frame, at, digest);
    }
}

impl<D: Digest + Copy, L: Seal + Copy> Wrong<D, L> {
    fn bend_entry(&self, part: SealedPart<'_>, frame: &mut [u8]) {
        let pairs_at = (part.place as usize).saturating_add(part.body.len());
        match self.way {
            Way::InventsShares => invent_tags(part, frame),
            Way::CountsTwice => repeat_pair(part, pairs_at, frame),
            Way::Forges => {
                if let Ok(digest) = self.suite.digest.digest(&[], FORGED_VALUE) {
                    forge_digest(part, &digest, frame);
                }
            }
            _ => {}
        }
    }

    // Bends every entry of a proof; `honest` is the frame as it was.
    fn bend_proof(&self, honest: &[u8], frame: &mut [u8]) {
        let Ok(proof) = read_proof(honest, self.f) else {
            return;
        };
        for part in proof.entries() {
            self.bend_entry(part, frame);
        }
    }

    // The proof of the board inside, bent.
    fn bent_proof(&self, low: u32, high: u32, out: &mut [u8]) -> Result<usize, Fault> {
        let mut honest = [0; LONGEST];
        let n = self.inner.proof(low, high, &mut honest)?;
        self.inner.proof(low, high, out)?;
        if n <= LONGEST {
            self.bend_proof(&honest[0..n], out);
        }
        Ok(n)
    }

    pub fn proof(&self, low: u32, high: u32, out: &mut [u8]) -> Result<usize, Fault> {
        match self.way {
            Way::RefusesAll => Err(REFUSED),
            Way::EvictsEarly => Err(EVICTED),
            Way::NeverSealed => Err(Cause::Unsealed.at(Layer::Board, low.max(1))),
            _ => self.bent_proof(low, high, out),
        }
    }
}
