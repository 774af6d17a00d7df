// The other boards' shares, taken in.
ghost use Rattle.std.specs.Prelude.{◌≡◌, ℕ, ◌≤◌, List, [], ◌∷◌, ◌++◌, length, Ok, Err};
ghost use Rattle.entry.specs.Bodies.{entry_bytes};
ghost use Rattle.label.specs.declared.Label.TheVariants.{Entry as entry-label};
ghost use Rattle.label.specs.Labels.{labelled};
ghost use Rattle.window.specs.Windows.{Added, entry_in};
ghost use Rattle.share.specs.Shares.{ShareReads, read_share};
ghost use Rattle.history.specs.Tables.{Read};
ghost use Rattle.digest.specs.Meaning.{bytes_by};
ghost use Rattle.history.specs.Answers.{Answered};
ghost use Rattle.history.specs.Events.{Event, effects, shared_in};
ghost use Rattle.board.specs.Standing.{Represents};
ghost use Rattle.board.specs.Shares.{Joins, Refusal, Rest, due_now, kept_now};

use super::Board;
use super::shares::put_body;
use digest::Digest;
use entry::parts::Pair;
use fault::{Cause, Fault, Layer};
use label::Label;
use seal::Seal;
use share::{Share, read_share};
use store::Store;

impl<S: Store, D: Digest, L: Seal> Board<S, D, L> {
    // Refuses a share of a board that sent one, and any where f + 1 are there.
    fn check_due(&self, share: Share<'_>) -> Result<(), Fault>
        ensures { result ≡ due_now self.now.window self.now.place.size.f share.entry.version share.entry.signer }
    {
        if self.window.has(share.version, share.signer) {
            return Err(Cause::NoShareDue.at(Layer::Board, 0));
        }
        if self.window.shares(share.version) > self.place.faults() {
            return Err(Cause::NoShareDue.at(Layer::Board, 0));
        }
        Ok(())
    }

    // Refuses a tag that is not the signer's over the entry that the window holds.
    fn check_tag(&self, share: Share<'_>) -> Result<(), Fault>
        requires { share.signer ≤ 31 }
        ensures { Joins (Ok tt) (Ok tt) (share.entry.tag.now ≡ L.Seal.tag self.now.seal share.entry.signer (labelled entry-label (entry_bytes 2 (entry_in self.now.window share.entry.version)))) (λ _. Unit {0}) result }
    {
        let mut body = [0; 267];
        let n = put_body(self.window.entry(share.version), &mut body);
        self.seal.verify(
            share.signer,
            &Label::Entry.bytes(),
            &body[0..n],
            share.tag,
            4,
        )
    }

    fn judge_share(&self, share: Share<'_>) -> Result<(), Fault>
        requires { share.signer ≤ 31 }
        ensures { Joins (kept_now self.now.count share.entry.version) (due_now self.now.window self.now.place.size.f share.entry.version share.entry.signer) (share.entry.tag.now ≡ L.Seal.tag self.now.seal share.entry.signer (labelled entry-label (entry_bytes 2 (entry_in self.now.window share.entry.version)))) (λ _. Unit {0}) result }
    {
        self.check_kept(share.version)?;
        self.check_due(share)?;
        self.check_tag(share)
    }

    // Judges a share, and puts it to the others of its entry.
    fn take_share(&mut self, share: Share<'_>) -> Result<u8, Fault>
        requires signer_bound { share.signer ≤ 31 }
        requires tag_len { length share.tag.now ≡ 16 }
        ensures answer { Joins (kept_now self.old.count share.entry.version) (due_now self.old.window self.old.place.size.f share.entry.version share.entry.signer) (share.entry.tag.now ≡ L.Seal.tag self.old.seal share.entry.signer (labelled entry-label (entry_bytes 2 (entry_in self.old.window share.entry.version)))) (Added self.old.window self.new.window share.entry.version share.entry.signer share.entry.tag.now) result }
        ensures refused { Refusal result (self.new ≡ self.old) }
        ensures rest { Rest self.old self.new }
    {
        self.judge_share(share)?;
        let mut copy = [0; 16];
        copy.copy_from_slice(share.tag);
        let pair = Pair::new(share.signer, copy);
        Ok(self.window.add(share.version, pair))
    }

    // Reads a share, judges it and takes it.
    fn read_and_take(&mut self, frame: &[u8]) -> Result<u8, Fault>
        ensures answer { Read (read_share 2 self.old.place.size.f frame.now) (λ s. Joins (kept_now self.old.count s.version) (due_now self.old.window self.old.place.size.f s.version s.signer) (s.tag ≡ L.Seal.tag self.old.seal s.signer (labelled entry-label (entry_bytes 2 (entry_in self.old.window s.version)))) (Added self.old.window self.new.window s.version s.signer s.tag)) result }
        ensures reads { ShareReads 2 self.old.place.size.f frame.now (read_share 2 self.old.place.size.f frame.now) }
        ensures refused { Refusal result (self.new ≡ self.old) }
        ensures rest { Rest self.old self.new }
    {
        let share = read_share(frame, self.place.faults())?;
        self.take_share(share)
    }

    // Takes in a board's share of an entry that is kept, and answers how many the entry now has. A refusal changes nothing.
    pub fn share_in(&mut self, frame: &[u8]) -> Result<u8, Fault>
        ensures answer { Read (read_share 2 self.old.place.size.f frame.now) (λ s. Joins (kept_now self.old.count s.version) (due_now self.old.window self.old.place.size.f s.version s.signer) (s.tag ≡ L.Seal.tag self.old.seal s.signer (labelled entry-label (entry_bytes 2 (entry_in self.old.window s.version)))) (Added self.old.window self.new.window s.version s.signer s.tag)) result }
        ensures refused { Refusal result (self.new ≡ self.old) }
        ensures rest { Rest self.old self.new }
        ensures history { (tag : ℕ → List ℕ → List ℕ) (f own : ℕ) (h : List Event) → Represents S.Store.holds (bytes_by D.Digest.of) L.Seal.tag tag f own self.old h → Answered (bytes_by D.Digest.of) tag f own (effects h) (shared_in frame.now result) × Represents S.Store.holds (bytes_by D.Digest.of) L.Seal.tag tag f own self.new (h ++ shared_in frame.now result ∷ []) }
    {
        self.read_and_take(frame)
    }
}
