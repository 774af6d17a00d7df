// How a board's lines are answered.
ghost use Rattle.digest.specs.Meaning.{written};
ghost use Rattle.lines.specs.Shown.{digits_of};
ghost use Rattle.board_line.specs.Answers.{LineAnswers, answer_as_kept};

use super::Answerer;
use crate::reply::answers::answer;
use digest::Digest;
use lines::serve::bytes::Answers;
use seal::Seal;
use store::Store;

impl<S: Store, D: Digest, L: Seal> Answers for Answerer<S, D, L> {
    type Answer = ();

    ghost answers = { λ before after line _. LineAnswers S.Store.holds (λ m. written (D.Digest.of m)) L.Seal.tag line before.board after.board (digits_of after.answer) };

    ghost as_kept = { λ before after line _. answer_as_kept S.Store.holds (λ m. written (D.Digest.of m)) L.Seal.tag before.board after.board line (digits_of after.answer) };

    fn answer(&mut self, line: &[u8]) {
        answer(&mut self.board, line, &mut self.answer);
    }
}
