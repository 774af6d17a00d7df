// The log as a store.
ghost use Rattle.std.specs.Prelude.{◌≡◌, ℕ, ◌<◌, [], ◌≢◌};
ghost use Rattle.log_store.specs.Logs.{in_use, logged};
ghost use Rattle.log_store.specs.Records.{installed, recorded};
ghost use Rattle.store.specs.Slot.{blank, slot};

use crate::records::{LogRecord, newest};
use crate::{Log, LogMemory};
use inline_vec::InlineVec;
use store::Store;
use store::item::Item;
use store::record::Record;

impl<const N: usize> Store for Log<N> {
    type Memory = LogMemory<N>;

    ghost holds = { logged };

    fn new(memory: LogMemory<N>) -> Log<N>
        ensures { (((k : ℕ) → k < 64 → logged result k ≡ blank)) × (in_use result ≡ []) }
    {
        let LogMemory { records } = memory;
        Log {
            records: InlineVec::over(records),
        }
    }

    fn look_up(&self, item: Item) -> Record {
        newest(self.records.as_slice(), item)
    }

    fn install(&mut self, item: Item, row: Record)
        ensures sets { logged self.new item.number ≡ slot row }
        ensures others { (k : ℕ) → (k ≢ item.number) → logged self.new k ≡ logged self.old k }
        ensures records { in_use self.new ≡ installed N (in_use self.old) (recorded item row) }
    {
        self.make_room();
        let _ = self.records.push(LogRecord { item, row });
    }
}
