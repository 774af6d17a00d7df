// What a log is made from, and how much of it is in use.
ghost use Rattle.std.specs.Prelude.{◌≡◌, ◌<◌, ◌≤◌, length, Ok, Err};
ghost use Rattle.fault.specs.Codes.{fault};
ghost use Rattle.fault.specs.declared.Cause.TheVariants.{NoRoom};
ghost use Rattle.fault.specs.declared.Layer.TheVariants.{Board};
ghost use Rattle.log_store.specs.Logs.{in_use};

use crate::records::LogRecord;
use crate::{Log, LogMemory};
use fault::{Cause, Fault, Layer};

impl<const N: usize> LogMemory<N> {
    // Refuses memory that the latest records of all items would fill.
    pub fn new(records: [LogRecord; N]) -> Result<LogMemory<N>, Fault>
        ensures { elim result [ Ok m ↦ (65 ≤ N) × (m.records ≡ records.entry) | Err e ↦ (N < 65) × (e ≡ fault NoRoom Board 0) ] }
    {
        if N < 65 {
            return Err(Cause::NoRoom.at(Layer::Board, 0));
        }
        Ok(LogMemory { records })
    }
}

impl<const N: usize> Log<N> {
    // How many records are in use.
    pub fn len(&self) -> usize
        ensures { (result ≡ length (in_use self.now)) × (result ≤ N) }
    {
        self.records.len()
    }
}
