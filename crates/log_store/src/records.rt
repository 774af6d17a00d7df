// The records of a log, and what is read from a row of them.
ghost use Rattle.std.specs.Prelude.{◌≡◌};
ghost use Rattle.store.specs.Slot.{slot};
ghost use Rattle.log_store.specs.Records.{has, latest};

use store::item::Item;
use store::record::Record;

// What was installed, and for which item.
#[derive(Clone, Copy, PartialEq, Eq, Debug)]
pub struct LogRecord {
    pub item: Item,
    pub row: Record,
}

// The latest record of an item, or a blank one where the item has none.
pub(crate) fn newest(records: &[LogRecord], item: Item) -> Record
    ensures { slot result ≡ latest records.now item.number }
{
    match records.iter().rev().find(|record| record.item == item) {
        Some(record) => record.row,
        None => Record::blank(),
    }
}

// Whether one of the records is the item's.
pub(crate) fn written(records: &[LogRecord], item: Item) -> bool
    ensures { result ≡ has records.now item.number }
{
    records.iter().any(|record| record.item == item)
}
