// Where the parts of a request stand in its frame.
ghost use Rattle.std.specs.Prelude.{◌≡◌, ◌+◌, ◌<◌, ◌≤◌, length, IfOk};
ghost use Rattle.request.specs.Plans.{head_of, laid, ordered, plan_seen, planned};

use crate::mark::{ReadAt, WriteAt};
use fault::{Fault, Layer};
use inline_vec::InlineVec;
use octets::{WIDTH, number_at};
use record::kind::Kind;
use record::{check_covered, check_rise, malformed, read_all};

// Where the counts of reads and writes stand, and where the reads begin.
pub(crate) const READS_AT: usize = WIDTH + 2;

pub(crate) const WRITES_AT: usize = READS_AT + 1;

pub(crate) const HEAD: usize = WRITES_AT + 1;

// The fields before the reads, as they stand in the frame: the counts are read before there is a list.
#[derive(Clone, Copy)]
pub struct Head {
    pub client: u8,
    pub sequence: u32,
    pub reads: u8,
    pub writes: u8,
}

#[derive(Clone, Copy)]
pub struct Plan {
    pub top: Head,
    pub reads: InlineVec<ReadAt, 16>,
    pub writes: InlineVec<WriteAt, 8>,
    pub writes_at: usize,
    pub tag_at: usize,
}

// The fields before the reads, from the front.
fn read_head(frame: &[u8]) -> Result<Head, Fault>
    ensures answer { result ≡ head_of 2 frame.now }
    ensures few { IfOk result (λ h. (h.reads ≤ 16) × (h.writes ≤ 8)) }
{
    let n = frame.len();
    if n < 1 {
        return Err(malformed(0));
    }
    if frame[0] != Kind::Request as u8 {
        return Err(malformed(0));
    }
    if n < 2 {
        return Err(malformed(n as u32));
    }
    let client = frame[1];
    if client > 15 {
        return Err(malformed(1));
    }
    if n <= READS_AT {
        return Err(malformed(n as u32));
    }
    let reads = frame[READS_AT];
    if reads > 16 {
        return Err(malformed(READS_AT as u32));
    }
    if n <= WRITES_AT {
        return Err(malformed(n as u32));
    }
    let writes = frame[WRITES_AT];
    if writes < 1 || writes > 8 {
        return Err(malformed(WRITES_AT as u32));
    }
    Ok(Head {
        client,
        sequence: number_at(frame, 2),
        reads,
        writes,
    })
}

// Rule 1 over the whole frame.
pub(crate) fn lay_out(frame: &[u8]) -> Result<Plan, Fault>
    ensures answer { plan_seen result ≡ laid 2 frame.now }
    ensures few { IfOk result (λ p. (p.top.reads ≤ 16) × (p.top.writes ≤ 8) × (length frame.now ≡ p.tag_at + 16) × (6 ≤ p.writes_at) × (p.writes_at ≤ p.tag_at)) }
{
    let top = read_head(frame)?;
    let (reads, writes_at) = read_all(frame, HEAD, top.reads as usize, ReadAt::default())?;
    let (writes, tag_at) = read_all(frame, writes_at, top.writes as usize, WriteAt::default())?;
    let n = frame.len();
    if n < tag_at + 16 {
        return Err(malformed(n as u32));
    }
    if n > tag_at + 16 {
        return Err(malformed((tag_at + 16) as u32));
    }
    Ok(Plan {
        top,
        reads,
        writes,
        writes_at,
        tag_at,
    })
}

// The rules behind rule 1.
pub(crate) fn check_order(plan: &Plan) -> Result<(), Fault>
    ensures { result ≡ ordered (planned plan.now) }
{
    let reads = plan.reads.as_slice();
    let writes = plan.writes.as_slice();
    check_rise(Layer::Frame, reads)?;
    check_rise(Layer::Frame, writes)?;
    check_covered(Layer::Frame, reads, writes)
}
