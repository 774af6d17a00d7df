// Requests that are to be written.
ghost use Rattle.std.specs.Prelude.{◌≡◌, ◌+◌, ◌≤◌, length, IfOk};
ghost use Rattle.std.specs.List.{flat_map, AllByRecursion};
ghost use Rattle.octets.specs.Numbers.{limit};
ghost use Rattle.octets.specs.Parts.{over};
ghost use Rattle.request.specs.Bodies.{RequestWrites, write_request};
ghost use Rattle.request.specs.Drafts.{draft_bytes, drafted, head_bytes, head_judged, plan_draft, read_bytes, read_ready, write_bytes, write_ready};
ghost use Rattle.request.specs.Plans.{plan_seen};
ghost use Rattle.request.specs.Sizes.{KnownSizes, RequestSize, SizesOccur};

use crate::item::{ReadItem, WriteItem};
use crate::mark::{ReadAt, WriteAt};
use crate::plan::{HEAD, Head, Plan, READS_AT, WRITES_AT, check_order};
use fault::{Cause, Fault, Layer};
use octets::{LIMIT, put_bytes, put_number};
use record::kind::Kind;
use record::malformed;
use record::piece::{plan_all, put_all};

// A request that is to be written, under the tag that it is to have.
#[derive(Clone, Copy)]
pub struct Draft<'r, 'w, 'v> {
    pub client: u8,
    pub sequence: u32,
    pub reads: &'r [ReadItem],
    pub writes: &'w [WriteItem<'v>],
    pub tag: [u8; 16],
}

// Rule 1 on the fields before the reads. The reader refuses the same values, but in a frame that may end before each of them.
fn plan_head(draft: Draft) -> Result<Head, Fault>
    ensures answer { result ≡ head_judged draft.entry.client draft.entry.sequence (length draft.entry.reads.now) (length draft.entry.writes.now) }
    ensures few { IfOk result (λ h. (h.reads ≡ length draft.entry.reads.now) × (h.writes ≡ length draft.entry.writes.now) × (h.reads ≤ 16) × (h.writes ≤ 8)) }
{
    if draft.client > 15 {
        return Err(malformed(1));
    }
    if draft.sequence > LIMIT {
        return Err(malformed(2));
    }
    let reads = draft.reads.len();
    if reads > 16 {
        return Err(malformed(READS_AT as u32));
    }
    let writes = draft.writes.len();
    if writes < 1 || writes > 8 {
        return Err(malformed(WRITES_AT as u32));
    }
    Ok(Head {
        client: draft.client,
        sequence: draft.sequence,
        reads: reads as u8,
        writes: writes as u8,
    })
}

// Rule 1 on a whole draft, and where its parts will stand.
fn plan_draft(draft: Draft) -> Result<Plan, Fault>
    ensures answer { plan_seen result ≡ plan_draft draft.entry }
    ensures few { IfOk result (λ p. (p.top.reads ≤ 16) × (p.top.writes ≤ 8) × (p.tag_at ≤ 200000)) }
    ensures tag { length draft.entry.tag ≡ 16 }
{
    let top = plan_head(draft)?;
    let (reads, writes_at) = plan_all(draft.reads, HEAD, ReadAt::default())?;
    let (writes, tag_at) = plan_all(draft.writes, writes_at, WriteAt::default())?;
    Ok(Plan {
        top,
        reads,
        writes,
        writes_at,
        tag_at,
    })
}

// The fields before the reads.
fn put_head(top: Head, out: &mut [u8])
    requires { (6 ≤ length out.old) × (top.sequence ≤ limit 2) }
    ensures { out.new ≡ over (head_bytes top.client top.sequence top.reads top.writes) out.old }
{
    out[0] = Kind::Request as u8;
    out[1] = top.client;
    put_number(top.sequence, &mut out[2..READS_AT]);
    out[READS_AT] = top.reads;
    out[WRITES_AT] = top.writes;
}

// Puts a draft to the front of a buffer, each part into the bytes behind the one before.
fn put_draft(draft: Draft, out: &mut [u8])
    requires few { (length draft.reads.now ≤ 16) × (length draft.writes.now ≤ 8) }
    requires ready { (draft.sequence ≤ limit 2) × AllByRecursion read_ready draft.reads.now × AllByRecursion write_ready draft.writes.now }
    requires room { 6 + length (flat_map read_bytes draft.reads.now) + length (flat_map write_bytes draft.writes.now) + 16 ≤ length out.old }
    ensures { out.new ≡ over (draft_bytes draft.entry) out.old }
{
    let top = Head {
        client: draft.client,
        sequence: draft.sequence,
        reads: draft.reads.len() as u8,
        writes: draft.writes.len() as u8,
    };
    put_head(top, out);
    let a = HEAD + put_all(draft.reads, &mut out[HEAD..]);
    let e = a + put_all(draft.writes, &mut out[a..]);
    put_bytes(&draft.tag, &mut out[e..]);
}

// Writes a request to the front of a buffer, and answers its length.
pub fn write_request(draft: Draft, out: &mut [u8]) -> Result<usize, Fault>
    ensures answer { result ≡ write_request 2 (drafted draft.entry) (length out.old) }
    ensures size { (IfOk result (RequestSize 2 (drafted draft.entry))) × (KnownSizes) }
    ensures occur { SizesOccur }
    ensures promised { RequestWrites 2 (drafted draft.entry) out.old out.new result }
{
    let plan = plan_draft(draft)?;
    check_order(&plan)?;
    let size = plan.tag_at + 16;
    if out.len() < size {
        return Err(Cause::NoRoom.at(Layer::Frame, 0));
    }
    put_draft(draft, out);
    Ok(size)
}
