// Pieces that are written one behind the other, and the records that a reader finds there.
ghost use Rattle.std.specs.Prelude.{◌≡◌, ℕ, ◌+◌, ◌*◌, ◌<◌, ◌≤◌, List, length, take, IfOk, Result};
ghost use Rattle.std.specs.List.{flat_map, AllByRecursion};
ghost use Rattle.fault.specs.declared.Fault.{Fault};
ghost use Rattle.octets.specs.Parts.{over};
ghost use Rattle.record.specs.Runs.{marked, planned_run};

use crate::Record;
use fault::Fault;
use inline_vec::InlineVec;

// What is written as bytes, one piece behind the other.
pub trait Piece: Copy {
    ghost bytes: { Self → List ℕ };

    // What can be written.
    ghost ready: { Self → Type 0 };

    fn size(self) -> usize
        requires { ready self }
        ensures { result ≡ length (bytes self) };

    fn put(self, out: &mut [u8])
        requires { (ready self) × (length (bytes self) ≤ length out.old) }
        ensures { out.new ≡ over (bytes self) out.old };
}

// Puts pieces to the front of a buffer, each into the bytes behind the one before, and answers how many bytes they take.
pub fn put_all<P: Piece>(pieces: &[P], out: &mut [u8]) -> usize
    requires { (length (flat_map P.Piece.bytes pieces.now) ≤ length out.old) × (AllByRecursion P.Piece.ready pieces.now) }
    ensures count { result ≡ length (flat_map P.Piece.bytes pieces.now) }
    ensures bytes { out.new ≡ over (flat_map P.Piece.bytes pieces.now) out.old }
{
    // Where a piece stands hangs on the sizes of all before it.
    let mut at = 0;
    for p in pieces {
        p.put(&mut out[at..]);
        at += p.size();
    }
    at
}

// A piece that a reader finds again as a record.
pub trait Part: Piece {
    type Mark: Record;

    // The record that the reader finds where the piece is written, or what it refuses there.
    ghost judged: { Self → ℕ → Result Self.Mark Fault };

    fn mark_at(self, at: usize) -> Result<Self::Mark, Fault>
        requires { at < 16777216 }
        ensures near { IfOk result (λ m. Self.Mark.Record.ends m ≤ at + 8192) }
        ensures answer { result ≡ judged self at };
}

// The marks that a reader finds where the parts are written, at most as many as fit, and where the parts end. The places that hold no mark hold a value that no one reads.
pub fn plan_all<P: Part, const N: usize>(
    parts: &[P],
    start: usize,
    unread: P::Mark,
) -> Result<(InlineVec<P::Mark, N>, usize), Fault>
    requires { start + 8192 * length parts.now < 16777216 }
    ensures near { IfOk result (λ p. p.1 ≤ start + 8192 * length parts.now) }
    ensures all { marked result ≡ planned_run P.Part.judged P.Mark.Record.ends (take N parts.now) start }
    ensures whole { length parts.now ≤ N → marked result ≡ planned_run P.Part.judged P.Mark.Record.ends parts.now start }
{
    let first = &parts[..parts.len().min(N)];
    let mut marks = InlineVec::new(unread);
    let mut at = start;
    for part in first {
        let mark = part.mark_at(at)?;
        at = mark.end();
        let _ = marks.push(mark);
    }
    Ok((marks, at))
}
