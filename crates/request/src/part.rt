// Reads and writes as pieces that are written one behind the other.
ghost use Rattle.std.specs.Prelude.{◌≡◌};
ghost use Rattle.request.specs.Drafts.{read_bytes, read_judged, read_ready, write_bytes, write_judged, write_ready};

use crate::item::{ReadItem, WriteItem};
use crate::mark::{DIGEST_AT, READ, ReadAt, WriteAt};
use fault::Fault;
use octets::{LIMIT, put_number};
use record::malformed;
use record::piece::{Part, Piece};

impl Piece for ReadItem {
    ghost bytes = { read_bytes };

    ghost ready = { read_ready };

    fn size(self) -> usize {
        READ
    }

    fn put(self, out: &mut [u8]) {
        out[0] = self.item;
        put_number(self.version, &mut out[1..DIGEST_AT]);
        out[DIGEST_AT..READ].copy_from_slice(&self.digest);
    }
}

impl Part for ReadItem {
    type Mark = ReadAt;

    ghost judged = { read_judged };

    fn mark_at(self, at: usize) -> Result<ReadAt, Fault> {
        if self.item > 63 {
            return Err(malformed(at as u32));
        }
        if self.version > LIMIT {
            return Err(malformed((at + 1) as u32));
        }
        Ok(ReadAt {
            item: self.item,
            version: self.version,
            place: at as u32,
        })
    }
}

impl<'a> Piece for WriteItem<'a> {
    ghost bytes = { write_bytes };

    ghost ready = { write_ready };

    fn size(self) -> usize {
        2 + self.value.len()
    }

    fn put(self, out: &mut [u8]) {
        let n = self.value.len();
        out[0] = self.item;
        out[1] = n as u8;
        out[2..2 + n].copy_from_slice(self.value);
    }
}

impl<'a> Part for WriteItem<'a> {
    type Mark = WriteAt;

    ghost judged = { write_judged };

    fn mark_at(self, at: usize) -> Result<WriteAt, Fault> {
        let n = self.value.len();
        if self.item > 63 {
            return Err(malformed(at as u32));
        }
        if n > 32 {
            return Err(malformed((at + 1) as u32));
        }
        Ok(WriteAt {
            item: self.item,
            place: at as u32,
            after: (at + 2 + n) as u32,
        })
    }
}
