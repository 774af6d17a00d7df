// A wrong board: an honest board inside, whose answers are bent in the way chosen.
// Where it judges otherwise, the board inside is handed another request, sealed anew, so that all it keeps follows its wrong judgement.
use crate::node::Suite;
use crate::ways::Way;
use board::size::Place;
use board::state::{Board, Mark};
use digest::Digest;
use fault::{Cause, Fault, Layer};
use seal::Seal;
use std::alloc::Global;
use store::Store;
use store::record::Record;
use store::table::Table;
use store::value::Value;

mod delivering;
mod judging;
mod proving;

// What the board that forges tells of an item.
pub const FORGED_ITEM: u8 = 5;

pub const FORGED_VALUE: &[u8] = b"forged";

pub const REFUSED: Fault = Fault {
    cause: Cause::Malformed,
    layer: Layer::Frame,
    place: 0,
};

pub const EVICTED: Fault = Fault {
    cause: Cause::Evicted,
    layer: Layer::Board,
    place: 0,
};

// A row that the board remembers: what was committed, or what an abort left behind.
#[derive(Clone, Copy)]
pub struct Row {
    pub item: u8,
    pub record: Record,
}

// `fresh` never gets a request, and so answers for a board that knows of no commit.
#[derive(Drop)]
pub struct Wrong<D: Digest, L: Seal> {
    pub way: Way,
    pub f: u8,
    pub inner: Board<Table, D, L>,
    pub fresh: Board<Table, D, L>,
    pub suite: Suite<D, L>,
    pub rows: Vec<Row>,
}

impl<D: Digest + Copy, L: Seal + Copy> Wrong<D, L> {
    pub fn new(heap: Global, place: Place, way: Way, suite: Suite<D, L>) -> Wrong<D, L> {
        Wrong {
            way,
            f: place.faults(),
            inner: Board::new(place, (), suite.digest, suite.seal),
            fresh: Board::new(place, (), suite.digest, suite.seal),
            suite,
            rows: Vec::new(heap),
        }
    }

    // The first row of an item.
    pub fn first_row(&self, item: u8) -> Option<Record> {
        let row = self.rows.iter().find(|row| row.item == item)?;
        Some(row.record)
    }

    // The last row of an item.
    pub fn last_row(&self, item: u8) -> Option<Record> {
        let row = self.rows.iter().rev().find(|row| row.item == item)?;
        Some(row.record)
    }

    // An item with a value that nobody wrote.
    fn forged(&self, item: u8) -> Result<Record, Fault> {
        let told = self.inner.item(item)?;
        let Some(value) = Value::new(FORGED_VALUE) else {
            return Ok(told);
        };
        if item != FORGED_ITEM || told.version == 0 {
            return Ok(told);
        }
        Ok(Record {
            version: told.version,
            value,
            digest: self.suite.digest.digest(&[], FORGED_VALUE)?,
        })
    }

    // One match for each call, and no object for each way: a way bends a few calls of one board, whose rows they share.
    pub fn item(&self, item: u8) -> Result<Record, Fault> {
        match self.way {
            Way::RefusesAll => Err(REFUSED),
            Way::InstallsNothing => self.fresh.item(item),
            Way::Forges => self.forged(item),
            Way::OwnCopy => match self.first_row(item) {
                Some(record) => Ok(record),
                None => self.fresh.item(item),
            },
            Way::InstallsEarly => match self.last_row(item) {
                Some(record) => Ok(record),
                None => self.inner.item(item),
            },
            _ => self.inner.item(item),
        }
    }

    pub fn mark(&self) -> Mark {
        match self.way {
            Way::RefusesAll => self.fresh.mark(),
            _ => self.inner.mark(),
        }
    }

    pub fn share_out(&self, version: u32, out: &mut [u8]) -> Result<usize, Fault> {
        match self.way {
            Way::RefusesAll => Err(REFUSED),
            Way::EvictsEarly => Err(EVICTED),
            _ => self.inner.share_out(version, out),
        }
    }

    pub fn share_in(&mut self, frame: &[u8]) -> Result<u8, Fault> {
        let enough = self.f.saturating_add(1);
        match self.way {
            Way::RefusesAll => Err(REFUSED),
            Way::InventsShares => {
                let _ = self.inner.share_in(frame);
                Ok(enough)
            }
            Way::CountsTwice => {
                let count = self.inner.share_in(frame)?;
                Ok(count.saturating_add(1).min(enough))
            }
            _ => self.inner.share_in(frame),
        }
    }
}
