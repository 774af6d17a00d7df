// A store that is a log: installing appends a record, and an item's latest record counts.
// A full log first drops every record that a later one of its item makes void.
// The log lives in the memory that it is handed, and never asks for more.
#![tactic(auto)]

ghost use Rattle.std.specs.Prelude.{◌≡◌, ◌≤◌, length};

pub mod calls;
pub mod memory;
pub mod records;
mod tidying;
pub mod worked;

use inline_vec::InlineVec;
use records::LogRecord;

// Memory that was found large enough: 64 items and one record more.
#[derive(Drop)]
pub struct LogMemory<const N: usize> {
    records: [LogRecord; N],
    ghost whole: { length records ≡ N },
    ghost room: { 65 ≤ N },
}

#[derive(Drop)]
pub struct Log<const N: usize> {
    records: InlineVec<LogRecord, N>,
    ghost room: { 65 ≤ N },
}
