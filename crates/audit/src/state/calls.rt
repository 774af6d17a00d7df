// Making an audit, replaying requests and judging reports.
ghost use Rattle.std.specs.Prelude.{◌≡◌, ℕ, List, [], ◌∷◌, ◌++◌, Decides};
ghost use Rattle.digest.specs.Meaning.{bytes_by};
ghost use Rattle.history.specs.Answers.{Answered};
ghost use Rattle.history.specs.Events.{Event, delivered, effects};
ghost use Rattle.board.specs.Delivering.{KeptOnRefusal};
ghost use Rattle.audit.specs.Reports.{Report};
ghost use Rattle.audit.specs.Auditing.{KeptOnNone, Reported, Represents};

use super::{Audit, BOARDS};
use crate::answers::Judgement;
use crate::track::Track;
use board::size::Place;
use board::state::{Board, Mark};
use digest::Digest;
use fault::Fault;
use history::Delivery;
use seal::Seal;
use store::Store;

impl<S: Store, D: Digest, L: Seal> Audit<S, D, L> {
    // A new audit, whose replay starts with a new board.
    pub fn new(place: Place, memory: S::Memory, digest: D, seal: L) -> Audit<S, D, L>
        ensures { Represents S.Store.holds (bytes_by D.Digest.of) L.Seal.tag (L.Seal.tag seal) place.size.f place.number result [] [] }
    {
        let none = Track::new();
        Audit {
            board: Board::new(place, memory, digest, seal),
            reports: 0,
            tracks: [none; BOARDS],
        }
    }

    // Replays one request.
    pub fn deliver(&mut self, frame: &[u8]) -> Result<Delivery, Fault>
        ensures history { (tag : ℕ → List ℕ → List ℕ) (f own : ℕ) (h : List Event) (reports : List Report) → Represents S.Store.holds (bytes_by D.Digest.of) L.Seal.tag tag f own self.old h reports → Answered (bytes_by D.Digest.of) tag f own (effects h) (delivered frame.now result) × Represents S.Store.holds (bytes_by D.Digest.of) L.Seal.tag tag f own self.new (h ++ delivered frame.now result ∷ []) reports }
        ensures refused { KeptOnRefusal self.old self.new result }
    {
        self.board.deliver(frame)
    }

    // Whether a mark is the replay's.
    fn agrees(&self, mark: Mark) -> bool
        ensures { Decides result ((mark.count ≡ self.now.board.count) × (mark.chain ≡ self.now.board.chain)) }
    {
        mark == self.board.mark()
    }

    // Judges a report and keeps track of it. None, and nothing changed, where there is no such board, or no number left for the report.
    pub fn report(&mut self, board: u8, mark: Mark) -> Option<Judgement>
        ensures history { (tag : ℕ → List ℕ → List ℕ) (f own : ℕ) (h : List Event) (reports : List Report) → Represents S.Store.holds (bytes_by D.Digest.of) L.Seal.tag tag f own self.old h reports → Reported S.Store.holds (bytes_by D.Digest.of) L.Seal.tag tag f own self.new h reports board mark.count mark.chain result }
        ensures refused { KeptOnNone self.old self.new result }
    {
        let at = board as usize;
        if at >= BOARDS {
            return None;
        }
        if self.reports == u32::MAX {
            return None;
        }
        let number = self.reports + 1;
        let right = self.agrees(mark);
        let track = self.tracks[at];
        self.tracks[at] = track.noted(number, right);
        self.reports = number;
        Some(Judgement::from(right))
    }
}
