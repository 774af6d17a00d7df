// How a bank's lines are answered.
ghost use Rattle.std.specs.Prelude.{◌≡◌};
ghost use Rattle.digest.specs.Meaning.{written};
ghost use Rattle.line.specs.Kept.{answer_as_kept};
ghost use Rattle.line.specs.Replies.{line_answer};
ghost use Rattle.line.specs.Shown.{answered};

use super::Answerer;
use crate::reply::NotServed;
use crate::reply::answers::answer;
use digest::Digest;
use lines::answer_line::AnswerLine;
use lines::serve::bytes::Answers;
use store::Store;

impl<S: Store, D: Digest> Answers for Answerer<S, D> {
    type Answer = Result<AnswerLine<136>, NotServed>;

    ghost answers = { λ before after line step. (after ≡ before) × (answered step ≡ line_answer (λ m. written (D.Digest.of m)) (S.Store.holds before.bank.store) before.bank.count before.bank.chain line) };

    ghost as_kept = { λ before after line step told. (told.0, answer_as_kept (λ m. written (D.Digest.of m)) (S.Store.holds before.bank.store) before.bank.count before.bank.chain line (answered step) told.1) };

    fn answer(&mut self, line: &[u8]) -> Result<AnswerLine<136>, NotServed> {
        answer(&self.bank, line)
    }
}
