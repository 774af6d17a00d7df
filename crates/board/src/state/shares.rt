// This board's own shares, handed out.
ghost use Rattle.std.specs.Prelude.{◌≡◌, ℕ, ◌≤◌, List, [], ◌∷◌, ◌++◌, length, take, Ok, Err};
ghost use Rattle.entry.specs.Bodies.{entry_body, entry_bytes};
ghost use Rattle.label.specs.declared.Label.TheVariants.{Entry as entry-label};
ghost use Rattle.label.specs.Labels.{labelled};
ghost use Rattle.record.specs.Writing.{filled};
ghost use Rattle.window.specs.Windows.{entry_in};
ghost use Rattle.digest.specs.Meaning.{bytes_by};
ghost use Rattle.history.specs.Answers.{Answered};
ghost use Rattle.history.specs.Events.{Event, effects, shared_out};
ghost use Rattle.board.specs.Standing.{Represents};
ghost use Rattle.board.specs.Shares.{Signed, kept_now, share_now, share_out_now};

use super::Board;
use digest::Digest;
use entry::parts::Entry;
use fault::{Cause, Fault, Layer};
use label::Label;
use seal::Seal;
use share::{ShareDraft, write_share};
use store::Store;

// The body of an entry in a buffer that has room for the longest.
pub(crate) fn put_body(entry: Entry, out: &mut [u8]) -> usize
    requires { length out.old ≡ 267 }
    ensures bound { result ≤ 267 }
    ensures body { take result out.new ≡ entry_bytes 2 (entry_body entry) }
{
    let n = entry.body_length();
    let _written = entry.write_body(out);
    n
}

impl<S: Store, D: Digest, L: Seal> Board<S, D, L> {
    // This board's tag over the entry that the window holds for a version.
    fn sign(&self, version: u32) -> Result<[u8; 16], Fault>
        ensures { Signed (L.Seal.tag self.now.seal self.now.place.number (labelled entry-label (entry_bytes 2 (entry_in self.now.window version)))) result }
    {
        let mut body = [0; 267];
        let n = put_body(self.window.entry(version), &mut body);
        self.seal
            .make(self.place.number(), &Label::Entry.bytes(), &body[0..n])
    }

    // Refuses a version that is not committed, or evicted.
    pub(crate) fn check_kept(&self, version: u32) -> Result<(), Fault>
        ensures { result ≡ kept_now self.now.count version }
    {
        if version > self.count {
            return Err(Cause::NotCommitted.at(Layer::Board, 0));
        }
        if version + 32 <= self.count {
            return Err(Cause::Evicted.at(Layer::Board, 0));
        }
        Ok(())
    }

    // This board's share of a version it keeps, to the front of a buffer.
    fn put_share(&self, version: u32, out: &mut [u8]) -> Result<usize, Fault>
        ensures answer { result ≡ share_out_now self.now.count version (length out.old) }
        ensures bytes { out.new ≡ filled result (share_now (L.Seal.tag self.now.seal) self.now.place.number (entry_in self.now.window version) version) out.old }
    {
        if version == 0 {
            return Err(Cause::Malformed.at(Layer::Frame, 1));
        }
        self.check_kept(version)?;
        if out.len() < 20 {
            return Err(Cause::NoRoom.at(Layer::Board, 0));
        }
        let tag = self.sign(version)?;
        let signer = self.place.number();
        write_share(
            ShareDraft {
                signer,
                version,
                tag,
            },
            self.place.faults(),
            out,
        )
    }

    // Writes this board's share of a version, and counts nothing.
    pub fn share_out(&self, version: u32, out: &mut [u8]) -> Result<usize, Fault>
        ensures answer { result ≡ share_out_now self.now.count version (length out.old) }
        ensures bytes { out.new ≡ filled result (share_now (L.Seal.tag self.now.seal) self.now.place.number (entry_in self.now.window version) version) out.old }
        ensures history { (tag : ℕ → List ℕ → List ℕ) (f own : ℕ) (h : List Event) → Represents S.Store.holds (bytes_by D.Digest.of) L.Seal.tag tag f own self.now h → Answered (bytes_by D.Digest.of) tag f own (effects h) (shared_out version out.old out.new result) × Represents S.Store.holds (bytes_by D.Digest.of) L.Seal.tag tag f own self.now (h ++ shared_out version out.old out.new result ∷ []) }
    {
        self.put_share(version, out)
    }
}
