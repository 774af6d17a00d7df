// Proofs: the entries of a range of versions, each with the shares of f + 1 boards.
ghost use Rattle.std.specs.Prelude.{◌≡◌, ℕ, ◌+◌, ◌≤◌, max, List, [], ◌∷◌, ◌++◌, map, length, take, Ok};
ghost use Rattle.std.specs.List.{range_with_len, flat_map};
ghost use Rattle.octets.specs.Numbers.{limit};
ghost use Rattle.entry.specs.Bodies.{sealed_body, sealed_bytes};
ghost use Rattle.record.specs.Chains.{tested};
ghost use Rattle.record.specs.Writing.{filled};
ghost use Rattle.proof.specs.Bodies.{proof_bytes};
ghost use Rattle.proof.specs.Rules.{proof_of};
ghost use Rattle.digest.specs.Meaning.{bytes_by};
ghost use Rattle.history.specs.Answers.{Answered, ProofReadsBack};
ghost use Rattle.history.specs.Events.{Event, effects, proved};
ghost use Rattle.board.specs.Standing.{Represents};
ghost use Rattle.board.specs.WriteSets.{WriteSets};
ghost use Rattle.board.specs.Proofs.{framed_now, proof_in, proof_now, range_now, sealed_in, sealed_row};

use super::Board;
use digest::Digest;
use entry::parts::SealedEntry;
use fault::{Cause, Fault, Layer};
use proof::write::write_proof;
use seal::Seal;
use store::Store;
use window::ring::Window;

// Puts the entries of the versions from the first on, with their shares, to the front of a list, and answers the length of their frame.
fn gather(window: &Window, first: u32, count: usize, entries: &mut [SealedEntry]) -> usize
    requires { (first ≤ limit 2 + 1) × ((count ≤ 32) × (length entries.old ≡ 32)) }
    ensures all { map sealed_body (take count entries.new) ≡ map (sealed_in window.now) (range_with_len first count) }
    ensures size { result ≡ 5 + length (flat_map (sealed_bytes 2) (map (sealed_in window.now) (range_with_len first count))) }
{
    let mut size = 5;
    // The index is a version's distance from the first, and its place in the list.
    for i in 0..count {
        let sealed = window.sealed(first + i as u32);
        size += sealed.length();
        entries[i] = sealed;
    }
    size
}

// Writes the proof of versions that a window holds to the front of a buffer; a lowest 0 counts as 1.
// Apart from the checks before it, so that a call that is refused does not pay for the list of entries.
fn write_range(window: &Window, low: u32, high: u32, f: u8, out: &mut [u8]) -> Result<usize, Fault>
    requires { (high ≤ limit 2) × ((max 1 low ≤ high + 1) × (high + 1 ≤ max 1 low + 32)) }
    ensures answer { result ≡ framed_now f (proof_in window.now low high) (length out.old) }
    ensures bytes { out.new ≡ filled result (proof_bytes 2 (proof_in window.now low high)) out.old }
    ensures back { (n : ℕ) → result ≡ Ok n → proof_of 2 f (take n out.new) ≡ Ok (proof_in window.now low high) }
{
    let first = low.max(1);
    let count = (high + 1 - first) as usize;
    let none = SealedEntry::new(window.entry(first));
    let mut entries = [none; 32];
    let size = gather(window, first, count, &mut entries);
    if out.len() < size {
        return Err(Cause::NoRoom.at(Layer::Board, 0));
    }
    write_proof(first, high, &entries[..count], f, out)
}

impl<S: Store, D: Digest, L: Seal> Board<S, D, L> {
    // Refuses a range that falls, a highest version that is not committed, and a lowest that is evicted.
    fn check_range(&self, low: u32, high: u32) -> Result<(), Fault>
        ensures { result ≡ range_now self.now.count low high }
    {
        if high < low {
            return Err(Cause::Malformed.at(Layer::Frame, 3));
        }
        if self.count < high {
            return Err(Cause::NotCommitted.at(Layer::Board, 0));
        }
        if 0 < high && low.max(1) + 32 <= self.count {
            return Err(Cause::Evicted.at(Layer::Board, 0));
        }
        Ok(())
    }

    // Refuses the lowest of the versions from the first on that has fewer than f + 1 shares.
    fn check_sealed(&self, first: u32, count: u32) -> Result<(), Fault>
        requires { (first ≤ limit 2 + 1) × (count ≤ 32) }
        ensures { result ≡ tested (map (sealed_row self.now.window self.now.place.size.f) (range_with_len first count)) }
    {
        for version in first..first + count {
            if self.window.shares(version) <= self.place.faults() {
                return Err(Cause::Unsealed.at(Layer::Board, version));
            }
        }
        Ok(())
    }

    // A proof from what the window holds, to the front of a buffer.
    fn put_proof(&self, low: u32, high: u32, out: &mut [u8]) -> Result<usize, Fault>
        ensures answer { result ≡ proof_now self.now.window self.now.place.size.f self.now.count low high (length out.old) }
        ensures bytes { out.new ≡ filled result (proof_bytes 2 (proof_in self.now.window low high)) out.old }
        ensures back { (n : ℕ) → result ≡ Ok n → proof_of 2 self.now.place.size.f (take n out.new) ≡ Ok (proof_in self.now.window low high) }
    {
        self.check_range(low, high)?;
        // A lowest version 0 counts as 1.
        let first = low.max(1);
        self.check_sealed(first, high + 1 - first)?;
        write_range(&self.window, low, high, self.place.faults(), out)
    }

    // Writes a proof of the versions from low to high to the front of a buffer; a lowest 0 counts as 1.
    pub fn proof(&self, low: u32, high: u32, out: &mut [u8]) -> Result<usize, Fault>
        ensures answer { result ≡ proof_now self.now.window self.now.place.size.f self.now.count low high (length out.old) }
        ensures bytes { out.new ≡ filled result (proof_bytes 2 (proof_in self.now.window low high)) out.old }
        ensures back { (n : ℕ) → result ≡ Ok n → proof_of 2 self.now.place.size.f (take n out.new) ≡ Ok (proof_in self.now.window low high) }
        ensures history { (tag : ℕ → List ℕ → List ℕ) (f own : ℕ) (h : List Event) → Represents S.Store.holds (bytes_by D.Digest.of) L.Seal.tag tag f own self.now h → WriteSets h → Answered (bytes_by D.Digest.of) tag f own (effects h) (proved low high out.old out.new result) × ProofReadsBack (bytes_by D.Digest.of) tag f own (effects h) low high out.new result × Represents S.Store.holds (bytes_by D.Digest.of) L.Seal.tag tag f own self.now (h ++ proved low high out.old out.new result ∷ []) }
    {
        self.put_proof(low, high, out)
    }
}
