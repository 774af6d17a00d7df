// How bytes are taken and lines are answered.
ghost use Rattle.std.specs.Prelude.{◌≡◌, ℕ, List, []};
ghost use Rattle.lines.specs.Gathers.{gathered};
ghost use Rattle.lines.specs.Lines.{kept_of};
ghost use Rattle.lines.specs.Serves.{Finishes, Says, Takes};

use super::Serving;
use crate::gather::Gather;

// What answers lines, such as a bank or a board.
pub trait Answers {
    type Answer;

    // Holds of the answerer before and after a line, of the line, and of the answer to it.
    ghost answers: { Self → Self → List ℕ → Self.Answer → Type 0 };

    fn answer(&mut self, line: &[u8]) -> Self::Answer
        ensures { answers self.old self.new line.now result };

    // What is kept of a line is answered as the line is.
    ghost as_kept: { (before after : Self) (line : List ℕ) (answer : Self.Answer) → answers before after (kept_of line) answer → answers before after line answer };
}

impl<A: Answers> Serving<A> {
    pub fn new(answerer: A) -> Serving<A>
        ensures { (result.answerer ≡ answerer) × (gathered result.gather ≡ []) }
    {
        Serving {
            answerer,
            gather: Gather::new(),
        }
    }

    pub fn answerer(&self) -> &A
        ensures { result.now ≡ self.now.answerer }
    {
        &self.answerer
    }

    // Answers the line that was gathered; the next begins.
    fn end_line(&mut self) -> A::Answer
        ensures line { gathered self.new.gather ≡ [] }
        ensures step { Says (A.answers self.old.answerer self.new.answerer) (gathered self.old.gather) result }
    {
        let answer = self.answerer.answer(self.gather.as_slice());
        self.gather.clear();
        answer
    }

    // One byte of the input.
    pub fn take(&mut self, b: u8) -> Option<A::Answer>
        ensures { Takes (A.answers self.old.answerer self.new.answerer) (self.new.answerer ≡ self.old.answerer) (gathered self.old.gather) b (gathered self.new.gather) result }
    {
        if b == b'\n' {
            return Some(self.end_line());
        }
        self.gather.push(b);
        None
    }

    // The end of the input: a last line needs no LF.
    pub fn finish(&mut self) -> Option<A::Answer>
        ensures { Finishes (A.answers self.old.answerer self.new.answerer) (self.new.answerer ≡ self.old.answerer) (gathered self.old.gather) result }
    {
        if self.gather.is_empty() {
            return None;
        }
        Some(self.end_line())
    }
}
