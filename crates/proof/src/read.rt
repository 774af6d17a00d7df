// Proofs read in place.
ghost use Rattle.std.specs.Prelude.{◌≡◌};
ghost use Rattle.proof.specs.Parts.{Seen};
ghost use Rattle.proof.specs.Promises.{ProofReads};
ghost use Rattle.proof.specs.Rules.{proof_of};

pub mod walk;

use crate::kind::malformed;
use crate::range::read_range;
use crate::scan::read_entries;
use fault::Fault;

// A proof as it stands in its frame.
#[derive(Clone, Copy)]
pub struct Proof<'a> {
    frame: &'a [u8],
    f: u8,
    low: u32,
    high: u32,
}

// Reads a proof in place, among 3 f + 1 boards.
pub fn read_proof<'a>(bytes: &'a [u8], f: u8) -> Result<Proof<'a>, Fault>
    ensures seen { Seen f result (proof_of 2 f bytes.now) }
    ensures promised { ProofReads 2 f bytes.now (proof_of 2 f bytes.now) }
{
    let range = read_range(bytes)?;
    let end = read_entries(bytes, range.low, range.high + 1 - range.low, f)?;
    if bytes.len() > end {
        return Err(malformed(end));
    }
    Ok(Proof {
        frame: bytes,
        f,
        low: range.low,
        high: range.high,
    })
}
