// Readings judged: against any bytes, and against the proof that a board writes for them.
ghost use Rattle.std.specs.Prelude.{◌≡◌, ℕ, List};
ghost use Rattle.digest.specs.Meaning.{bytes_by};
ghost use Rattle.seal.specs.Seals.{passes};
ghost use Rattle.history.specs.Events.{Event};
ghost use Rattle.board.specs.Standing.{Represents};
ghost use Rattle.board.specs.WriteSets.{WriteSets};
ghost use Rattle.reader.specs.Checks.{CheckAnswers};
ghost use Rattle.promises.specs.Example.{AcceptedOverHistories};
ghost use Rattle.promises.specs.Readings.{Judged, OwnProof, ReadAndJudged, RunAndJudged};

use crate::calls::{Answer, Call, Start};
use crate::runs::run_new;
use board::state::Board;
use digest::Digest;
use fault::Fault;
use reader::range::{highest, lowest};
use reader::state::Reader;
use reading::read_reading;
use seal::Seal;
use store::Store;

// Checks a reading against a proof.
pub fn judge<D: Digest, L: Seal>(
    reader: &Reader<D, L>,
    reading: &[u8],
    proof: &[u8],
) -> Result<u32, Fault>
    ensures answer { CheckAnswers (bytes_by D.Digest.of) (passes (L.Seal.tag reader.now.seal)) reader.now.size.f reading.now proof.now result }
    ensures judged { Judged (bytes_by D.Digest.of) (L.Seal.tag reader.now.seal) reader.now.size.f reading.now proof.now result }
    ensures instance { AcceptedOverHistories }
{
    reader.check(reading, proof)
}

// Asks a board for a proof, and checks a reading with it.
pub fn judge_own<S: Store, D: Digest, K: Seal, L: Seal>(
    board: &Board<S, D, K>,
    reader: &Reader<D, L>,
    low: u32,
    high: u32,
    reading: &[u8],
    room: &mut [u8],
) -> Result<u32, Fault>
    ensures { (tag : ℕ → List ℕ → List ℕ) (f own : ℕ) (h : List Event) → Represents S.Store.holds (bytes_by D.Digest.of) K.Seal.tag tag f own board.now h → WriteSets h → reader.now.size.f ≡ f → ((s : ℕ) (m : List ℕ) → L.Seal.tag reader.now.seal s m ≡ tag s m) → OwnProof S.Store.holds (bytes_by D.Digest.of) K.Seal.tag tag f own board.now h low high reading.now room.old room.new result }
{
    match board.proof(low, high, room) {
        Ok(n) => judge(reader, reading, &room[..n]),
        Err(fault) => Err(fault),
    }
}

// Asks a board for the proof of the versions that were read, and checks the reading with it.
pub fn prove_and_judge<S: Store, D: Digest, K: Seal, L: Seal>(
    board: &Board<S, D, K>,
    reader: &Reader<D, L>,
    reading: &[u8],
    room: &mut [u8],
) -> Result<u32, Fault>
    ensures { (tag : ℕ → List ℕ → List ℕ) (f own : ℕ) (h : List Event) → Represents S.Store.holds (bytes_by D.Digest.of) K.Seal.tag tag f own board.now h → WriteSets h → reader.now.size.f ≡ f → ((s : ℕ) (m : List ℕ) → L.Seal.tag reader.now.seal s m ≡ tag s m) → ReadAndJudged S.Store.holds (bytes_by D.Digest.of) K.Seal.tag tag f own board.now h reading.now room.old room.new result }
{
    match read_reading(reading) {
        Ok(read) => judge_own(board, reader, lowest(read), highest(read), reading, room),
        Err(fault) => Err(fault),
    }
}

// Makes a run on a new board, and judges a reading with that board's proof.
pub fn run_and_judge<S: Store, D: Digest, K: Seal, L: Seal>(
    start: Start<S::Memory, D, K>,
    calls: &[Call<'_>],
    answers: &mut [Answer],
    room: &mut [u8],
    reader: &Reader<D, L>,
    reading: &[u8],
    proof: &mut [u8],
) -> (Board<S, D, K>, usize, Result<u32, Fault>)
    ensures { RunAndJudged S.Store.holds (bytes_by D.Digest.of) K.Seal.tag (K.Seal.tag start.seal) start.place.size.f start.place.number calls.now answers.old answers.new room.old room.new reading.now proof.old proof.new reader.now.size.f (L.Seal.tag reader.now.seal) result.0 result.1 result.2 }
{
    let (board, count) = run_new(start, calls, answers, room);
    let answer = prove_and_judge(&board, reader, reading, proof);
    (board, count, answer)
}
