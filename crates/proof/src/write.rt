// Proofs that are to be written.
ghost use Rattle.std.specs.Prelude.{◌≡◌, length, IfOk};
ghost use Rattle.proof.specs.Sizes.{KnownSizes, ProofSize};
ghost use Rattle.proof.specs.Writing.{ProofWrites, drafted, write_proof};

use crate::draft::Draft;
use entry::parts::SealedEntry;
use fault::{Cause, Fault, Layer};

// Writes a proof to the front of a buffer, and answers its length; each entry goes into the bytes behind the one before.
// The parts of a draft one by one, as callers have them.
pub fn write_proof(
    low: u32,
    high: u32,
    entries: &[SealedEntry],
    f: u8,
    out: &mut [u8],
) -> Result<usize, Fault>
    ensures answer { result ≡ write_proof 2 f (drafted low high entries.now) (length out.old) }
    ensures size { (IfOk result (ProofSize 2 f (drafted low high entries.now))) × (KnownSizes) }
    ensures promised { ProofWrites 2 f (drafted low high entries.now) out.old out.new result }
{
    let draft = Draft { low, high, entries };
    let size = draft.weigh(f)?;
    if out.len() < size {
        return Err(Cause::NoRoom.at(Layer::Frame, 0));
    }
    draft.put(out);
    Ok(size)
}
