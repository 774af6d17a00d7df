// Readings: what a board holds under some items, read in place and written into a caller's buffer.
#![tactic(auto)]

ghost use Rattle.std.specs.Prelude.{◌≡◌, ℕ, List, length, IfOk};
ghost use Rattle.record.specs.Refusals.{InRange};
ghost use Rattle.reading.specs.Bodies.{ReadingBody, ReadingItemBody, ReadingReads, reading_of, reading_format};
ghost use Rattle.reading.specs.Orders.{Orderly};
ghost use Rattle.reading.specs.Plans.{planned};
ghost use Rattle.reading.specs.Readings.{Found, ItemsFound, item_in, item_of, item_seen, item_shown, item_views, items_left, seen};

pub mod draft;
pub mod mark;
pub mod part;
pub mod plan;

use crate::mark::{ItemAt, VALUE_AT};
use crate::plan::{Plan, check_order, lay_out};
use fault::Fault;
use octets::part;
use record::records::{Records, Shows};

// A reading as it stands in its frame: its list of items is a part of the frame.
#[derive(Clone, Copy)]
pub struct Reading<'a> {
    pub frame: &'a [u8],
    pub plan: Plan,
    pub items: &'a [u8],
}

// One item of a reading, with its offset.
#[derive(Clone, Copy)]
pub struct ReadingItem<'a> {
    pub item: u8,
    pub version: u32,
    pub value: &'a [u8],
    pub place: u32,
}

impl<'a> Shows<'a> for ItemAt {
    type Shown = ReadingItem<'a>;

    ghost Body = { ReadingItemBody × ℕ };

    ghost body = { item_shown };

    ghost view = { item_in };

    fn show(self, frame: &'a [u8]) -> Option<ReadingItem<'a>> {
        let at = self.place as usize + VALUE_AT;
        let after = self.after as usize;
        if at > after || after > frame.len() {
            return None;
        }
        Some(ReadingItem {
            item: self.item,
            version: self.version,
            value: part(frame, at, after - at),
            place: self.place,
        })
    }
}

// Reads a reading in place.
pub fn read_reading<'a>(bytes: &'a [u8]) -> Result<Reading<'a>, Fault>
    ensures answer { seen result ≡ reading_of 2 bytes.now }
    ensures promised { ReadingReads 2 bytes.now (seen result) }
    ensures found { IfOk result (Found bytes.now) }
    ensures ordered { (b : ReadingBody) → InRange (reading_format 2) bytes.now b → Orderly 2 b (seen result) }
{
    let plan = lay_out(bytes)?;
    check_order(&plan)?;
    let items = &bytes[2..plan.end];
    Ok(Reading {
        frame: bytes,
        plan,
        items,
    })
}

impl<'a> Reading<'a> {
    // How many items there are.
    pub fn count(self) -> usize
        ensures { result ≡ length (planned self.entry.plan).items }
    {
        self.plan.items.len()
    }

    // Where the frame ends.
    pub fn end(self) -> usize
        ensures { result ≡ self.entry.plan.end }
    {
        self.plan.end
    }

    // Item i of the frame, or nothing behind the last.
    pub fn item(self, i: usize) -> Option<ReadingItem<'a>>
        ensures answer { item_seen result ≡ item_of self.entry i }
    {
        self.plan.items.as_slice().get(i)?.show(self.frame)
    }

    // The items of the frame from the first.
    pub fn items(&self) -> Records<'_, 'a, ItemAt>
        ensures all { ItemsFound self.now → items_left result ≡ item_views self.now }
    {
        Records::new(self.frame, self.plan.items.as_slice())
    }
}
