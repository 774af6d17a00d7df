// Runs: calls made on a board one behind the other.
ghost use Rattle.std.specs.Prelude.{◌≡◌, ℕ, List, []};
ghost use Rattle.digest.specs.Meaning.{bytes_by};
ghost use Rattle.history.specs.Answers.{Lawful};
ghost use Rattle.history.specs.Events.{Event};
ghost use Rattle.board.specs.Standing.{Represents};
ghost use Rattle.board.specs.WriteSets.{WriteSets};
ghost use Rattle.history.specs.Backs.{AllReadBack};
ghost use Rattle.promises.specs.Events.{Refused};
ghost use Rattle.promises.specs.Runs.{Called, Runs};

use crate::calls::{Answer, Call, Start};
use board::state::Board;
use digest::Digest;
use seal::Seal;
use store::Store;

// Makes one call. A call that writes is lent the front of the buffer, as far as the buffer goes.
pub fn call<S: Store, D: Digest, L: Seal>(
    board: &mut Board<S, D, L>,
    call: Call<'_>,
    room: &mut [u8],
) -> Answer
    ensures refused { Refused result → (board.new ≡ board.old) × (room.new ≡ room.old) }
    ensures history { (tag : ℕ → List ℕ → List ℕ) (f own : ℕ) (h : List Event) → Represents S.Store.holds (bytes_by D.Digest.of) L.Seal.tag tag f own board.old h → WriteSets h → Called S.Store.holds (bytes_by D.Digest.of) L.Seal.tag tag f own h call.entry result room.old room.new board.new }
{
    match call {
        Call::Deliver(frame) => Answer::Delivered(board.deliver(frame)),
        Call::Item(number) => Answer::Asked(board.item(number)),
        Call::Mark => Answer::Marked(board.mark()),
        Call::ShareOut {
            version,
            room: bytes,
        } => {
            let lent = bytes.min(room.len());
            Answer::SharedOut(board.share_out(version, &mut room[..lent]))
        }
        Call::ShareIn(frame) => Answer::SharedIn(board.share_in(frame)),
        Call::Proof {
            low,
            high,
            room: bytes,
        } => {
            let lent = bytes.min(room.len());
            Answer::Proved(board.proof(low, high, &mut room[..lent]))
        }
    }
}

// Makes calls in their order, as far as there is room for the answers, and answers how many were made.
pub fn run<S: Store, D: Digest, L: Seal>(
    board: &mut Board<S, D, L>,
    calls: &[Call<'_>],
    answers: &mut [Answer],
    room: &mut [u8],
) -> usize
    ensures { (tag : ℕ → List ℕ → List ℕ) (f own : ℕ) (h : List Event) → Represents S.Store.holds (bytes_by D.Digest.of) L.Seal.tag tag f own board.old h → WriteSets h → Lawful (bytes_by D.Digest.of) tag f own [] h → AllReadBack (bytes_by D.Digest.of) tag f own [] h → Runs S.Store.holds (bytes_by D.Digest.of) L.Seal.tag tag f own h calls.now answers.old answers.new room.old room.new board.new result }
{
    let count = calls.len().min(answers.len());
    // By index: a proof knows only the length of a list that was written through `iter_mut` and `zip`.
    for i in 0..count {
        answers[i] = call(board, calls[i], room);
    }
    count
}

// The same on a new board: of such a run nothing is assumed.
pub fn run_new<S: Store, D: Digest, L: Seal>(
    start: Start<S::Memory, D, L>,
    calls: &[Call<'_>],
    answers: &mut [Answer],
    room: &mut [u8],
) -> (Board<S, D, L>, usize)
    ensures { Runs S.Store.holds (bytes_by D.Digest.of) L.Seal.tag (L.Seal.tag start.seal) start.place.size.f start.place.number [] calls.now answers.old answers.new room.old room.new result.0 result.1 }
{
    let mut board = Board::new(start.place, start.memory, start.digest, start.seal);
    let count = run(&mut board, calls, answers, room);
    (board, count)
}
