// The items read, judged against the entries of a proof.
ghost use Rattle.digest.specs.Meaning.{written};
ghost use Rattle.reader.specs.Items.{FoundWrong, JudgesItems};

use crate::entries::{records, writes_item};
use digest::Digest;
use fault::{Cause, Fault, Layer};
use proof::part::SealedPart;
use proof::read::Proof;
use reading::{Reading, ReadingItem};

// What one entry finds wrong with an item read: its own version's lacks the value's digest, a later one writes the item.
fn wrong_by(part: SealedPart, read: ReadingItem, digest: &[u8]) -> Option<Cause>
    ensures { FoundWrong part.entry read.entry digest.now result }
{
    if part.version < read.version {
        return None;
    }
    if part.version > read.version {
        return writes_item(part, read.item).then_some(Cause::Stale);
    }
    (!records(part, read.item, digest)).then_some(Cause::Unmatched)
}

// Judges each item read against every entry, and ends at the first that fails.
pub(crate) fn judge<D: Digest>(digest: &D, reading: Reading, proof: Proof) -> Result<(), Fault>
    ensures { JudgesItems (λ m. written (D.Digest.of m)) reading.entry proof.entry result }
{
    let mut answer = Ok(());
    'readings: for read in reading.items() {
        if read.version == 0 && read.value.len() > 0 {
            answer = Err(Cause::Unmatched.at(Layer::Reader, read.place));
            break 'readings;
        }
        let made = digest.digest(&[], read.value)?;
        for part in proof.entries() {
            if let Some(cause) = wrong_by(part, read, &made) {
                answer = Err(cause.at(Layer::Reader, read.place));
                break 'readings;
            }
        }
    }
    answer
}
