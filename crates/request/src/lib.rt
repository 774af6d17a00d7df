// Requests: a client's reads and writes under its tag, read in place and written into a caller's buffer.
#![tactic(auto)]

ghost use Rattle.std.specs.Prelude.{◌≡◌, ℕ, ◌+◌, ◌≤◌, List, map, length, take, IfOk};
ghost use Rattle.record.specs.Refusals.{InRange};
ghost use Rattle.request.specs.Bodies.{ReadBody, RequestBody, WriteBody, RequestReads, read_request, request_format};
ghost use Rattle.request.specs.Orders.{Orderly};
ghost use Rattle.request.specs.Sizes.{RequestSize};
ghost use Rattle.request.specs.Requests.{Found, ReadsFound, WritesFound, held, read_in, read_of, read_seen, read_shown, read_views, reads_left, seen, write_in, write_of, write_seen, write_shown, write_views, writes_left};

pub mod draft;
pub mod item;
pub mod mark;
pub mod part;
pub mod plan;

use crate::mark::{DIGEST_AT, READ, ReadAt, WriteAt};
use crate::plan::{HEAD, Plan, check_order, lay_out};
use fault::Fault;
use octets::part;
use record::records::{Records, Shows};

// A request as it stands in its frame: its lists of records and its tag are parts of the frame.
#[derive(Clone, Copy)]
pub struct Request<'a> {
    pub frame: &'a [u8],
    pub plan: Plan,
    pub reads: &'a [u8],
    pub writes: &'a [u8],
    pub tag: &'a [u8],
}

// One read of a request, with its offset.
#[derive(Clone, Copy)]
pub struct Read<'a> {
    pub item: u8,
    pub version: u32,
    pub digest: &'a [u8],
    pub place: u32,
}

// One write of a request, with its offset.
#[derive(Clone, Copy)]
pub struct Write<'a> {
    pub item: u8,
    pub value: &'a [u8],
    pub place: u32,
}

impl<'a> Shows<'a> for ReadAt {
    type Shown = Read<'a>;

    ghost Body = { ReadBody × ℕ };

    ghost body = { read_shown };

    ghost view = { read_in };

    fn show(self, frame: &'a [u8]) -> Option<Read<'a>> {
        let at = self.place as usize;
        if at + READ > frame.len() {
            return None;
        }
        Some(Read {
            item: self.item,
            version: self.version,
            digest: part(frame, at + DIGEST_AT, 32),
            place: self.place,
        })
    }
}

impl<'a> Shows<'a> for WriteAt {
    type Shown = Write<'a>;

    ghost Body = { WriteBody × ℕ };

    ghost body = { write_shown };

    ghost view = { write_in };

    fn show(self, frame: &'a [u8]) -> Option<Write<'a>> {
        let at = self.place as usize + 2;
        let after = self.after as usize;
        if at > after || after > frame.len() {
            return None;
        }
        Some(Write {
            item: self.item,
            value: part(frame, at, after - at),
            place: self.place,
        })
    }
}

// Reads a request in place.
pub fn read_request<'a>(bytes: &'a [u8]) -> Result<Request<'a>, Fault>
    ensures answer { seen result ≡ read_request 2 bytes.now }
    ensures promised { RequestReads 2 bytes.now (seen result) }
    ensures found { IfOk result (Found bytes.now) }
    ensures ordered { (b : RequestBody) → InRange (request_format 2) bytes.now b → Orderly 2 b (seen result) }
    ensures size { IfOk result (λ q. RequestSize 2 (held q) (length bytes.now)) }
{
    let plan = lay_out(bytes)?;
    check_order(&plan)?;
    let reads = &bytes[HEAD..plan.writes_at];
    let writes = &bytes[plan.writes_at..plan.tag_at];
    let tag = &bytes[plan.tag_at..plan.tag_at + 16];
    Ok(Request {
        frame: bytes,
        plan,
        reads,
        writes,
        tag,
    })
}

impl<'a> Request<'a> {
    // The frame before its tag, which the tag covers.
    pub fn covered(self) -> &'a [u8]
        ensures { result.now ≡ take self.entry.plan.tag_at self.entry.frame.now }
    {
        if self.plan.tag_at > self.frame.len() {
            return self.frame;
        }
        part(self.frame, 0, self.plan.tag_at)
    }

    // Read i of the frame, or nothing behind the last.
    pub fn read(self, i: usize) -> Option<Read<'a>>
        ensures answer { read_seen result ≡ read_of self.entry i }
    {
        self.plan.reads.as_slice().get(i)?.show(self.frame)
    }

    // Write i of the frame, or nothing behind the last.
    pub fn write(self, i: usize) -> Option<Write<'a>>
        ensures answer { write_seen result ≡ write_of self.entry i }
    {
        self.plan.writes.as_slice().get(i)?.show(self.frame)
    }

    // The reads of the frame from the first.
    pub fn reads(&self) -> Records<'_, 'a, ReadAt>
        ensures all { ReadsFound self.now → reads_left result ≡ read_views self.now }
    {
        Records::new(self.frame, self.plan.reads.as_slice())
    }

    // The writes of the frame from the first.
    pub fn writes(&self) -> Records<'_, 'a, WriteAt>
        ensures all { WritesFound self.now → writes_left result ≡ write_views self.now }
    {
        Records::new(self.frame, self.plan.writes.as_slice())
    }
}
