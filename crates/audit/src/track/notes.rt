// How a board's reports are kept track of.
ghost use Rattle.std.specs.Prelude.{◌≡◌, ℕ, ◌+◌, List, [], ◌∷◌, ◌++◌, length, Decides};
ghost use Rattle.audit.specs.Reports.{Departs, Report, RightMark};
ghost use Rattle.audit.specs.Tracking.{Tracks};

use super::Track;
use crate::answers::Departure;

impl Track {
    pub fn new() -> Track
        ensures { (digest : List ℕ → List ℕ) (b : ℕ) → Tracks digest result [] b }
    {
        Track {
            right: None,
            wrong: None,
        }
    }

    // What is kept after one more report of this board, the one of this number.
    pub fn noted(self, number: u32, right: bool) -> Track
        ensures { (digest : List ℕ → List ℕ) (b : ℕ) (reports : List Report) (last : Report) → Tracks digest self reports b → number ≡ length reports + 1 → last.board ≡ b → Decides right (RightMark digest last) → Tracks digest result (reports ++ last ∷ []) b }
    {
        if self.wrong.is_some() {
            return self;
        }
        if right {
            return Track {
                right: Some(number),
                wrong: None,
            };
        }
        Track {
            right: self.right,
            wrong: Some(number),
        }
    }

    pub fn departure(self) -> Option<Departure>
        ensures { (digest : List ℕ → List ℕ) (b : ℕ) (reports : List Report) → Tracks digest self reports b → Departs digest reports b result }
    {
        let wrong = self.wrong?;
        Some(Departure {
            right: self.right,
            wrong,
        })
    }
}
