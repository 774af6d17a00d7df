// What the lines came to.
use std::fmt;

// A count that stays at the largest number.
#[derive(Clone, Copy)]
pub(crate) struct Count(u64);

impl Count {
    pub fn add(&mut self) {
        self.0 = self.0.saturating_add(1);
    }

    pub fn plus(self, other: Count) -> Count {
        Count(self.0.saturating_add(other.0))
    }
}

impl fmt::Display for Count {
    fn fmt<W: fmt::Write>(&self, f: &mut fmt::Formatter<W>) -> fmt::Result {
        write!(f, "{}", self.0)
    }
}

// Requests by their verdict, lines that were not understood, and which boards reported.
#[derive(Clone, Copy)]
pub(crate) struct Tally {
    pub lines: Count,
    pub commits: Count,
    pub aborts: Count,
    pub refused: Count,
    pub strange: Count,
    pub reported: [bool; 16],
}

impl Tally {
    pub fn new() -> Tally {
        Tally {
            lines: Count(0),
            commits: Count(0),
            aborts: Count(0),
            refused: Count(0),
            strange: Count(0),
            reported: [false; 16],
        }
    }

    pub fn note_reporter(&mut self, board: u8) {
        if let Some(reported) = self.reported.get_mut(board as usize) {
            *reported = true;
        }
    }
}
