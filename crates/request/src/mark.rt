// Reads and writes as they stand in a request's frame.
ghost use Rattle.std.specs.Prelude.{◌≡◌};
ghost use Rattle.request.specs.Marks.{read_ends, read_number, read_place, read_stands, write_ends, write_number, write_place, write_stands};
ghost use Rattle.std.proofs.Common.{rules};

use fault::Fault;
use octets::{WIDTH, number_at};
use record::{Numbered, Record, malformed};

// Counted from a read's first byte: where its digest begins, and where it ends.
pub(crate) const DIGEST_AT: usize = WIDTH + 1;

pub(crate) const READ: usize = DIGEST_AT + 32;

// A read: item, version, digest.
#[derive(Clone, Copy, Default)]
pub struct ReadAt {
    pub item: u8,
    pub version: u32,
    pub place: u32,
}

// The same in each kind of mark but for the type: a trait reaches no field, so one impl for all would ask each for both fields again.
impl Numbered for ReadAt {
    ghost number = { read_number };

    ghost place = { read_place };

    fn key(&self) -> u32 {
        u32::from(self.item)
    }

    fn offset(&self) -> u32 {
        self.place
    }
}

impl Record for ReadAt {
    ghost ends = { read_ends 2 };

    ghost stands = { read_stands 2 };

    ghost narrow = { Prim.search rules };

    fn end(&self) -> usize {
        self.place as usize + READ
    }

    fn read_at(frame: &[u8], at: usize) -> Result<ReadAt, Fault> {
        let n = frame.len();
        if n <= at {
            return Err(malformed(n as u32));
        }
        let item = frame[at];
        if item > 63 {
            return Err(malformed(at as u32));
        }
        if n < at + READ {
            return Err(malformed(n as u32));
        }
        Ok(ReadAt {
            item,
            version: number_at(frame, at + 1),
            place: at as u32,
        })
    }
}

// A write: item, length, value; and the place behind it.
#[derive(Clone, Copy, Default)]
pub struct WriteAt {
    pub item: u8,
    pub place: u32,
    pub after: u32,
}

// The same in each kind of mark but for the type: a trait reaches no field, so one impl for all would ask each for both fields again.
impl Numbered for WriteAt {
    ghost number = { write_number };

    ghost place = { write_place };

    fn key(&self) -> u32 {
        u32::from(self.item)
    }

    fn offset(&self) -> u32 {
        self.place
    }
}

impl Record for WriteAt {
    ghost ends = { write_ends };

    ghost stands = { write_stands };

    ghost narrow = { Prim.search rules };

    fn end(&self) -> usize {
        self.after as usize
    }

    fn read_at(frame: &[u8], at: usize) -> Result<WriteAt, Fault> {
        let n = frame.len();
        if n <= at {
            return Err(malformed(n as u32));
        }
        let item = frame[at];
        if item > 63 {
            return Err(malformed(at as u32));
        }
        if n <= at + 1 {
            return Err(malformed(n as u32));
        }
        let size = frame[at + 1];
        if size > 32 {
            return Err(malformed((at + 1) as u32));
        }
        let after = at + 2 + size as usize;
        if n < after {
            return Err(malformed(n as u32));
        }
        Ok(WriteAt {
            item,
            place: at as u32,
            after: after as u32,
        })
    }
}
