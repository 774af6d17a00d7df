// How a full log makes room.
ghost use Rattle.std.specs.Prelude.{◌≡◌, ◌<◌, length, not};
ghost use Rattle.log_store.specs.Logs.{in_use};
ghost use Rattle.log_store.specs.Records.{different, has, item_of, latest_only, roomy};

use crate::Log;
use crate::records::{LogRecord, written};
use inline_vec::RestTest;

// Whether a record is the latest of its item.
#[derive(Drop)]
struct IsLatest;

impl RestTest<LogRecord> for IsLatest {
    ghost told = { λ _ r later is. is ≡ not (has later (item_of r)) };

    fn keeps(&self, record: &LogRecord, later: &[LogRecord]) -> bool {
        !written(later, record.item)
    }
}

impl<const N: usize> Log<N> {
    // Keeps the latest record of each item, in order, and drops the others.
    fn tidy(&mut self)
        ensures kept { in_use self.new ≡ latest_only (in_use self.old) }
        ensures count { length (in_use self.new) ≡ different (in_use self.old) }
    {
        self.records.retain_by_rest(&IsLatest);
    }

    // A full log is tidied before it takes one record more.
    pub(crate) fn make_room(&mut self)
        ensures kept { in_use self.new ≡ roomy N (in_use self.old) }
        ensures room { length (in_use self.new) < N }
    {
        if self.records.len() == N {
            self.tidy();
        }
    }
}
