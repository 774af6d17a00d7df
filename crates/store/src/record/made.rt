// The record of an item that nothing was installed for.
ghost use Rattle.std.specs.Prelude.{◌≡◌};
ghost use Rattle.store.specs.Slot.{slot, blank};

use super::Record;
use crate::value::Value;

impl Record {
    pub fn blank() -> Record
        ensures { slot result ≡ blank }
    {
        Record {
            version: 0,
            value: Value::empty(),
            digest: [0; 32],
        }
    }
}
