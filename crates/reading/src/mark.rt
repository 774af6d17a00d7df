// Items as they stand in a reading's frame.
ghost use Rattle.std.specs.Prelude.{◌≡◌};
ghost use Rattle.reading.specs.Marks.{read_item_ends, read_item_number, read_item_place, read_item_stands};
ghost use Rattle.std.proofs.Common.{rules};

use fault::Fault;
use octets::{WIDTH, number_at};
use record::{Numbered, Record, malformed};

// Counted from an item's first byte: where its length stands, and where its value begins.
pub(crate) const LENGTH_AT: usize = WIDTH + 1;

pub(crate) const VALUE_AT: usize = LENGTH_AT + 1;

// An item: its number, version, length and value; and the place behind it.
#[derive(Clone, Copy, Default)]
pub struct ItemAt {
    pub item: u8,
    pub version: u32,
    pub place: u32,
    pub after: u32,
}

// The same in each kind of mark but for the type: a trait reaches no field, so one impl for all would ask each for both fields again.
impl Numbered for ItemAt {
    ghost number = { read_item_number };

    ghost place = { read_item_place };

    fn key(&self) -> u32 {
        u32::from(self.item)
    }

    fn offset(&self) -> u32 {
        self.place
    }
}

impl Record for ItemAt {
    ghost ends = { read_item_ends };

    ghost stands = { read_item_stands 2 };

    ghost narrow = { Prim.search rules };

    fn end(&self) -> usize {
        self.after as usize
    }

    fn read_at(frame: &[u8], at: usize) -> Result<ItemAt, Fault> {
        let n = frame.len();
        if n <= at {
            return Err(malformed(n as u32));
        }
        let item = frame[at];
        if item > 63 {
            return Err(malformed(at as u32));
        }
        if n < at + VALUE_AT {
            return Err(malformed(n as u32));
        }
        let size = frame[at + LENGTH_AT];
        if size > 32 {
            return Err(malformed((at + LENGTH_AT) as u32));
        }
        let after = at + VALUE_AT + size as usize;
        if n < after {
            return Err(malformed(n as u32));
        }
        Ok(ItemAt {
            item,
            version: number_at(frame, at + 1),
            place: at as u32,
            after: after as u32,
        })
    }
}
