// What a store means for an item, as it is shown.
ghost use Rattle.std.specs.Prelude.{◌≡◌};
ghost use Rattle.answer.specs.Answers.{item_answer, said};
ghost use Rattle.digest.specs.Meaning.{bytes_by};

use digest::Digest;
use fault::{Cause, Fault, Layer};
use store::Store;
use store::item::Item;
use store::record::Record;

// Version, value and digest of an item; at version 0 the digest is the empty value's.
pub fn look_up<S: Store, D: Digest>(store: &S, digest: &D, number: u8) -> Result<Record, Fault>
    ensures { said result ≡ item_answer (bytes_by D.Digest.of) (S.Store.holds store.now) number }
{
    // The place of a plain argument is its offset in a line: behind the kind.
    let item = Item::new(number).ok_or(Cause::Malformed.at(Layer::Frame, 1))?;
    let row = store.look_up(item);
    if row.version == 0 {
        let digest = digest.digest(&[], &[])?;
        return Ok(Record {
            version: 0,
            value: row.value,
            digest,
        });
    }
    Ok(row)
}
