// What holds of every log, and a full log as an example.
ghost use Rattle.log_store.specs.Laws.{EveryItemAndFirstTwice, Full_at_65, Latest_counts, Tidying};
ghost use Rattle.log_store.specs.Logs.{in_use};

use crate::{Log, LogMemory};
use store::Store;
use store::item::Item;
use store::record::Record;

// Stands for the proof of the three laws.
pub fn laws_stand() -> bool
    ensures latest { Latest_counts }
    ensures tidying { Tidying }
    ensures full { Full_at_65 }
{
    true
}

// A log of 65 that has every item, and item 0 twice.
pub fn filled(memory: LogMemory<65>) -> Log<65>
    ensures { EveryItemAndFirstTwice (in_use result) }
{
    let mut log = Log::<65>::new(memory);
    for number in 0..65u8 {
        if let Ok(item) = Item::try_from(number % 64) {
            log.install(item, Record::blank());
        }
    }
    log
}
