// The tags of a proof.
ghost use Rattle.std.specs.Prelude.{◌≡◌};
ghost use Rattle.seal.specs.Seals.{passes};
ghost use Rattle.reader.specs.Tags.{JudgesProof, JudgesTags};

use fault::Fault;
use label::Label;
use proof::part::SealedPart;
use proof::read::Proof;
use seal::Seal;

// Verifies the tags of an entry from the front.
pub(crate) fn verify_entry<L: Seal>(seal: &L, part: SealedPart) -> Result<(), Fault>
    ensures { JudgesTags (passes (L.Seal.tag seal.now)) part.entry result }
{
    let label = Label::Entry.bytes();
    for pair in part.pairs() {
        seal.verify(pair.signer, &label, part.body, pair.tag, pair.place)?;
    }
    Ok(())
}

// Verifies the tags of a proof, entry by entry.
pub(crate) fn verify_proof<L: Seal>(seal: &L, proof: Proof) -> Result<(), Fault>
    ensures { JudgesProof (passes (L.Seal.tag seal.now)) proof.entry result }
{
    for part in proof.entries() {
        verify_entry(seal, part)?;
    }
    Ok(())
}
