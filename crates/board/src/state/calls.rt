// Making a board, and the calls that only look.
ghost use Rattle.std.specs.Prelude.{◌≡◌, ℕ, List, [], ◌∷◌, ◌++◌};
ghost use Rattle.digest.specs.Meaning.{bytes_by};
ghost use Rattle.history.specs.Answers.{Answered};
ghost use Rattle.history.specs.Events.{Event, asked, effects, marked};
ghost use Rattle.board.specs.Standing.{Represents};
ghost use Rattle.answer.specs.Answers.{item_answer, said};

use super::{Board, Mark};
use crate::size::Place;
use answer::items::look_up;
use digest::Digest;
use fault::Fault;
use numbers::clients::Clients;
use seal::Seal;
use store::Store;
use store::record::Record;
use window::ring::Window;

impl<S: Store, D: Digest, L: Seal> Board<S, D, L> {
    // A new board, over a new store made from its memory.
    pub fn new(place: Place, memory: S::Memory, digest: D, seal: L) -> Board<S, D, L>
        ensures { Represents S.Store.holds (bytes_by D.Digest.of) L.Seal.tag (L.Seal.tag seal) place.size.f place.number result [] }
    {
        let store = S::new(memory);
        Board {
            store,
            digest,
            seal,
            place,
            count: 0,
            chain: [0; 32],
            clients: Clients::new(),
            window: Window::new(),
        }
    }

    pub fn mark(&self) -> Mark
        ensures now { (result.count ≡ self.now.count) × (result.chain ≡ self.now.chain) }
        ensures history { (tag : ℕ → List ℕ → List ℕ) (f own : ℕ) (h : List Event) → Represents S.Store.holds (bytes_by D.Digest.of) L.Seal.tag tag f own self.now h → Answered (bytes_by D.Digest.of) tag f own (effects h) (marked result.count result.chain) × Represents S.Store.holds (bytes_by D.Digest.of) L.Seal.tag tag f own self.now (h ++ marked result.count result.chain ∷ []) }
    {
        Mark {
            count: self.count,
            chain: self.chain,
        }
    }

    // Version, value and digest of an item; at version 0 the digest is the empty value's.
    pub fn item(&self, number: u8) -> Result<Record, Fault>
        ensures now { said result ≡ item_answer (bytes_by D.Digest.of) (S.Store.holds self.now.store) number }
        ensures history { (tag : ℕ → List ℕ → List ℕ) (f own : ℕ) (h : List Event) → Represents S.Store.holds (bytes_by D.Digest.of) L.Seal.tag tag f own self.now h → Answered (bytes_by D.Digest.of) tag f own (effects h) (asked number (said result)) × Represents S.Store.holds (bytes_by D.Digest.of) L.Seal.tag tag f own self.now (h ++ asked number (said result) ∷ []) }
    {
        look_up(&self.store, &self.digest, number)
    }
}
