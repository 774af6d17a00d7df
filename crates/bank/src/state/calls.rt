// The calls on a bank.
ghost use Rattle.std.specs.Prelude.{◌≡◌, ℕ, ◌<◌, [], length, replicate};
ghost use Rattle.bank.specs.Answers.{empty_proof, filled, item_answer, proof_answer, said, share_refusal};
ghost use Rattle.digest.specs.Meaning.{bytes_by};
ghost use Rattle.store.specs.Slot.{blank};

use super::{Bank, Mark};
use answer::items::look_up;
use digest::Digest;
use fault::{Cause, Fault, Layer};
use store::Store;
use store::record::Record;

// The empty proof: kind 04, low 1, high 0.
const EMPTY_PROOF: [u8; 5] = [4, 0, 1, 0, 0];

impl<S: Store, D: Digest> Bank<S, D> {
    pub fn new(memory: S::Memory, digest: D) -> Bank<S, D>
        ensures items { (k : ℕ) → k < 64 → S.Store.holds result.store k ≡ blank }
        ensures mark { (result.count ≡ 0) × (result.chain ≡ replicate 32 0) }
    {
        let store = S::new(memory);
        Bank {
            store,
            digest,
            count: 0,
            chain: [0; 32],
        }
    }

    // Version, value and digest of an item; at version 0 the digest is the empty value's.
    pub fn item(&self, number: u8) -> Result<Record, Fault>
        ensures { said result ≡ item_answer (bytes_by D.Digest.of) (S.Store.holds self.now.store) number }
    {
        look_up(&self.store, &self.digest, number)
    }

    pub fn mark(&self) -> Mark
        ensures { (result.count ≡ self.now.count) × (result.chain ≡ self.now.chain) }
    {
        Mark {
            count: self.count,
            chain: self.chain,
        }
    }

    // Without a commit there is no entry to share, so the answer is always a refusal.
    pub fn share_out(&self, version: u32) -> Fault
        ensures { result ≡ share_refusal version }
    {
        if version == 0 {
            return Cause::Malformed.at(Layer::Frame, 1);
        }
        Cause::NotCommitted.at(Layer::Board, 0)
    }

    // The proof for the versions from low to high: without a commit only the empty one can be had.
    pub fn proof(&self, low: u32, high: u32, out: &mut [u8]) -> Result<usize, Fault>
        ensures answer { result ≡ proof_answer low high (length out.old) }
        ensures bytes { out.new ≡ filled result empty_proof out.old }
    {
        if low > high {
            return Err(Cause::Malformed.at(Layer::Frame, 3));
        }
        if high > self.count {
            return Err(Cause::NotCommitted.at(Layer::Board, 0));
        }
        if out.len() < 5 {
            return Err(Cause::NoRoom.at(Layer::Board, 0));
        }
        out[0..5].copy_from_slice(&EMPTY_PROOF);
        Ok(5)
    }
}
