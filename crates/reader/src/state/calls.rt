// Making a reader, and its check.
ghost use Rattle.std.specs.Prelude.{◌≡◌};
ghost use Rattle.digest.specs.Meaning.{written};
ghost use Rattle.seal.specs.Seals.{passes};
ghost use Rattle.reader.specs.Checks.{CheckAnswers};
ghost use Rattle.reader.specs.Accepted.{AcceptedMeansHeld, HonestProofDecides};

use super::Reader;
use crate::items::judge;
use crate::range::{covers, highest, lowest};
use crate::tags::verify_proof;
use cluster_size::ClusterSize;
use digest::Digest;
use fault::{Cause, Fault, Layer};
use proof::read::read_proof;
use reading::read_reading;
use seal::Seal;

impl<D: Digest, L: Seal> Reader<D, L> {
    // A reader with the size, the digest and the seal of the boards.
    pub fn new(size: ClusterSize, digest: D, seal: L) -> Reader<D, L>
        ensures { (result.size ≡ size) × (result.digest ≡ digest) × (result.seal ≡ seal) }
    {
        Reader { size, digest, seal }
    }

    // Reads both frames and judges what they hold, each part by itself.
    fn examine(&self, reading: &[u8], proof: &[u8]) -> Result<u32, Fault>
        ensures { CheckAnswers (λ m. written (D.Digest.of m)) (passes (L.Seal.tag self.now.seal)) self.now.size.f reading.now proof.now result }
    {
        let read = read_reading(reading)?;
        let proven = read_proof(proof, self.size.faults())?;
        let high = highest(read);
        if !covers(proven, lowest(read), high) {
            return Err(Cause::WrongRange.at(Layer::Reader, 1));
        }
        verify_proof(&self.seal, proven)?;
        judge(&self.digest, read, proven)?;
        Ok(high)
    }

    // Checks a reading against a proof; acceptance answers the highest version read.
    pub fn check(&self, reading: &[u8], proof: &[u8]) -> Result<u32, Fault>
        ensures answer { CheckAnswers (λ m. written (D.Digest.of m)) (passes (L.Seal.tag self.now.seal)) self.now.size.f reading.now proof.now result }
        ensures held { AcceptedMeansHeld (λ m. written (D.Digest.of m)) (passes (L.Seal.tag self.now.seal)) self.now.size.f reading.now proof.now result }
        ensures decides { HonestProofDecides (λ m. written (D.Digest.of m)) (passes (L.Seal.tag self.now.seal)) self.now.size.f reading.now proof.now result }
    {
        self.examine(reading, proof)
    }
}
