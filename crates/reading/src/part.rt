// Items that are to be written, as pieces one behind the other.
ghost use Rattle.std.specs.Prelude.{◌≡◌};
ghost use Rattle.reading.specs.Drafts.{read_item_bytes, read_item_judged, read_item_ready};

use crate::mark::{ItemAt, LENGTH_AT, VALUE_AT};
use fault::Fault;
use octets::{LIMIT, put_number};
use record::malformed;
use record::piece::{Part, Piece};

// An item that is to be written.
#[derive(Clone, Copy)]
pub struct ReadingDraft<'a> {
    pub item: u8,
    pub version: u32,
    pub value: &'a [u8],
}

impl<'a> Piece for ReadingDraft<'a> {
    ghost bytes = { read_item_bytes };

    ghost ready = { read_item_ready };

    fn size(self) -> usize {
        VALUE_AT + self.value.len()
    }

    fn put(self, out: &mut [u8]) {
        let n = self.value.len();
        out[0] = self.item;
        put_number(self.version, &mut out[1..LENGTH_AT]);
        out[LENGTH_AT] = n as u8;
        out[VALUE_AT..VALUE_AT + n].copy_from_slice(self.value);
    }
}

impl<'a> Part for ReadingDraft<'a> {
    type Mark = ItemAt;

    ghost judged = { read_item_judged };

    fn mark_at(self, at: usize) -> Result<ItemAt, Fault> {
        let n = self.value.len();
        if self.item > 63 {
            return Err(malformed(at as u32));
        }
        if self.version > LIMIT {
            return Err(malformed((at + 1) as u32));
        }
        if n > 32 {
            return Err(malformed((at + LENGTH_AT) as u32));
        }
        Ok(ItemAt {
            item: self.item,
            version: self.version,
            place: at as u32,
            after: (at + VALUE_AT + n) as u32,
        })
    }
}
