// A board that is fed bytes and answers each line as it ends.
ghost use Rattle.std.specs.Prelude.{◌≡◌, []};
ghost use Rattle.lines.specs.Shown.{digits_of};

use board::state::Board;
use lines::answer_line::AnswerLine;

pub mod answers;

// The answer is kept until the next, so that it is written in one place.
#[derive(Drop)]
pub struct Answerer<S, D, L> {
    board: Board<S, D, L>,
    answer: AnswerLine<23628>,
}

impl<S, D, L> Answerer<S, D, L> {
    pub fn new(board: Board<S, D, L>) -> Answerer<S, D, L>
        ensures { (result.board ≡ board) × (digits_of result.answer ≡ []) }
    {
        Answerer {
            board,
            answer: AnswerLine::new(),
        }
    }

    // The digits of the last answer.
    pub fn digits(&self) -> &[u8]
        ensures { result.now ≡ digits_of self.now.answer }
    {
        self.answer.as_slice()
    }
}
