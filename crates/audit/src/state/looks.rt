// The calls on an audit that only look.
ghost use Rattle.std.specs.Prelude.{◌≡◌, ℕ, List, length};
ghost use Rattle.digest.specs.Meaning.{bytes_by};
ghost use Rattle.history.specs.Answers.{Answered};
ghost use Rattle.history.specs.Events.{Event, effects, marked};
ghost use Rattle.audit.specs.Reports.{Departs, Parts, Report};
ghost use Rattle.audit.specs.Auditing.{Represents};

use super::{Audit, BOARDS};
use crate::answers::Departure;
use board::state::Mark;
use digest::Digest;
use seal::Seal;
use store::Store;

impl<S: Store, D: Digest, L: Seal> Audit<S, D, L> {
    // The replay's mark.
    pub fn mark(&self) -> Mark
        ensures { (tag : ℕ → List ℕ → List ℕ) (f own : ℕ) (h : List Event) (reports : List Report) → Represents S.Store.holds (bytes_by D.Digest.of) L.Seal.tag tag f own self.now h reports → Answered (bytes_by D.Digest.of) tag f own (effects h) (marked result.count result.chain) }
    {
        self.board.mark()
    }

    // How many reports were judged, which is the number of the last.
    pub fn reports(&self) -> u32
        ensures { (tag : ℕ → List ℕ → List ℕ) (f own : ℕ) (h : List Event) (judged : List Report) → Represents S.Store.holds (bytes_by D.Digest.of) L.Seal.tag tag f own self.now h judged → result ≡ length judged }
    {
        self.reports
    }

    // Between which of its reports a board first departed; none where it gave no wrong report.
    pub fn departure(&self, board: u8) -> Option<Departure>
        ensures reports { (tag : ℕ → List ℕ → List ℕ) (f own : ℕ) (h : List Event) (reports : List Report) → Represents S.Store.holds (bytes_by D.Digest.of) L.Seal.tag tag f own self.now h reports → Departs (bytes_by D.Digest.of) reports board result }
        ensures commits { (tag : ℕ → List ℕ → List ℕ) (f own : ℕ) (h : List Event) (reports : List Report) → Represents S.Store.holds (bytes_by D.Digest.of) L.Seal.tag tag f own self.now h reports → Parts (bytes_by D.Digest.of) reports result }
    {
        let at = board as usize;
        if at >= BOARDS {
            return None;
        }
        self.tracks[at].departure()
    }
}
