// How a line is answered.
ghost use Rattle.std.specs.Prelude.{◌≡◌, ◌≤◌, take};
ghost use Rattle.digest.specs.Meaning.{written};
ghost use Rattle.lines.specs.Lines.{asks_for, line_call};
ghost use Rattle.lines.specs.Shown.{digits_of};
ghost use Rattle.board_line.specs.Answers.{LineAnswers, Served, ServedBytes};

use super::LONGEST_ANSWER;
use super::puts::{put_count, put_delivery, put_item, put_written};
use board::state::Board;
use digest::Digest;
use lines::answer_line::AnswerLine;
use lines::call::{Call, LONGEST_FRAME, line_call};
use lines::replies::{mark_reply, no_call_bytes};
use octets::put_at;
use seal::Seal;
use store::Store;

// The bytes of the board's answer to a call; a share and a proof are written where they stay.
fn put_reply<S: Store, D: Digest, L: Seal>(
    board: &mut Board<S, D, L>,
    call: Call<'_>,
    out: &mut [u8; LONGEST_ANSWER],
) -> usize
    ensures bound { result ≤ 11814 }
    ensures served { Served S.Store.holds (λ m. written (D.Digest.of m)) L.Seal.tag (asks_for call.entry) board.old board.new (take result out.new) }
{
    match call {
        Call::Deliver(frame) => put_delivery(board.deliver(frame), out),
        Call::ShareIn(frame) => put_count(board.share_in(frame), out),
        Call::Proof(low, high) => {
            let written = board.proof(low, high, &mut out[1..LONGEST_ANSWER]);
            put_written(written, out)
        }
        Call::Item(number) => put_item(board.item(number), out),
        Call::Mark => {
            let mark = board.mark();
            put_at(&mark_reply(mark.count, &mark.chain), 0, out)
        }
        Call::ShareOut(version) => {
            let written = board.share_out(version, &mut out[1..LONGEST_ANSWER]);
            put_written(written, out)
        }
    }
}

// The bytes of the answer to a line.
fn put_line<S: Store, D: Digest, L: Seal>(
    board: &mut Board<S, D, L>,
    line: &[u8],
    out: &mut [u8; LONGEST_ANSWER],
) -> usize
    ensures bound { result ≤ 11814 }
    ensures served { ServedBytes S.Store.holds (λ m. written (D.Digest.of m)) L.Seal.tag (line_call line.now) board.old board.new (take result out.new) }
{
    let mut room = [0; LONGEST_FRAME];
    match line_call(line, &mut room) {
        Some(call) => put_reply(board, call, out),
        None => put_at(&no_call_bytes(), 0, out),
    }
}

// The answer to a line, whole, and what the line asks for done.
pub fn answer<S: Store, D: Digest, L: Seal>(
    board: &mut Board<S, D, L>,
    line: &[u8],
    out: &mut AnswerLine<23628>,
)
    ensures { LineAnswers S.Store.holds (λ m. written (D.Digest.of m)) L.Seal.tag line.now board.old board.new (digits_of out.new) }
{
    let mut bytes = [0; LONGEST_ANSWER];
    let n = put_line(board, line, &mut bytes);
    out.show(&bytes[..n]);
}
