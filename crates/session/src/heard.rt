// The replies that a session has heard, by board.
ghost use Rattle.std.specs.Prelude.{◌≡◌, ℕ, None};
ghost use Rattle.session.specs.Hearing.{Took, heard_of, hearers};

use decision::Decision;

// What each board said, if it replied.
#[derive(Clone, Copy)]
pub struct Heard {
    said: [Option<Decision>; 16],
}

impl Heard {
    pub fn new() -> Heard
        ensures { (b : ℕ) → heard_of result b ≡ None }
    {
        Heard { said: [None; 16] }
    }

    // How many boards said this.
    fn agreeing(&self, decision: Decision) -> usize
        ensures { result ≡ hearers self.now decision }
    {
        self.said
            .iter()
            .filter(|said| **said == Some(decision))
            .count()
    }

    // Takes a board's reply and answers how many boards agree with it; None, and nothing changed, where it has replied.
    pub fn take(&mut self, board: u8, decision: Decision) -> Option<usize>
        ensures { Took self.old self.new board decision result }
    {
        if self.said.get(usize::from(board))?.is_some() {
            return None;
        }
        // By index: after a write through `get_mut` a proof knows the array's length and no element.
        self.said[usize::from(board)] = Some(decision);
        Some(self.agreeing(decision))
    }
}
