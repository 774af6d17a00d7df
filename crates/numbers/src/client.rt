// The numbers of one client.
ghost use Rattle.std.specs.Prelude.{◌≡◌, ℕ, ◌<◌, ◌⊎◌, List, [], ◌∷◌, Some, None, Decides, ◌≢◌, MatchOption};
ghost use Rattle.numbers.specs.Sequence.{Open, Steps};
ghost use Rattle.numbers.specs.Tracking.{held_at, Behind, Tracks, Untouched, UsesUp};

use octets::LIMIT;

// The next number to open, and those open now in any order.
#[derive(Clone, Copy)]
pub struct Numbers {
    next: Option<u32>,
    held: [Option<u32>; 4],
}

// The number was used before, or was never opened.
#[derive(Clone, Copy, PartialEq, Eq, Debug)]
pub struct NotOpen;

impl Numbers {
    pub fn new() -> Numbers
        ensures { Tracks 2 result [] }
    {
        Numbers {
            next: Some(5),
            held: [Some(1), Some(2), Some(3), Some(4)],
        }
    }

    // Where a number is held, if it is.
    fn place(&self, s: u32) -> Option<usize>
        ensures { MatchOption result ((k : ℕ) → k < 4 → held_at self.now k ≢ Some s) (λ i. (i < 4) × (held_at self.now i ≡ Some s)) }
    {
        self.held.iter().position(|held| *held == Some(s))
    }

    pub fn is_open(&self, s: u32) -> bool
        ensures { (used : List ℕ) → Tracks 2 self.now used → Decides result (Open 2 used s) }
    {
        self.place(s).is_some()
    }

    // Uses up an open number and answers the one that is opened, if one is left; an error, and nothing changed, where it is not open.
    pub fn use_up(&mut self, s: u32) -> Result<Option<u32>, NotOpen>
        ensures used { (used : List ℕ) → Tracks 2 self.old used → UsesUp 2 self.old self.new used s result }
        ensures kept { Untouched self.old self.new result }
        ensures steps { (used : List ℕ) → Tracks 2 self.old used → Open 2 used s → Steps 2 used s }
    {
        let at = self.place(s).ok_or(NotOpen)?;
        let opened = self.next;
        self.held[at] = opened;
        self.next = opened.and_then(behind);
        Ok(opened)
    }
}

// The number behind, if there is one.
fn behind(n: u32) -> Option<u32>
    ensures { Behind 2 (Some n) result }
{
    if n < LIMIT { Some(n + 1) } else { None }
}
