// Where the items of a reading stand in its frame.
ghost use Rattle.std.specs.Prelude.{◌≡◌, ◌≤◌, length, IfOk};
ghost use Rattle.reading.specs.Plans.{count_of, laid, ordered, plan_seen, planned};

use crate::mark::ItemAt;
use fault::{Fault, Layer};
use inline_vec::InlineVec;
use record::kind::Kind;
use record::{check_rise, malformed, read_all};

// The marks of the items, and where the frame ends.
#[derive(Clone, Copy)]
pub struct Plan {
    pub items: InlineVec<ItemAt, 16>,
    pub end: usize,
}

// The fields before the items, from the front.
fn read_count(frame: &[u8]) -> Result<u8, Fault>
    ensures answer { result ≡ count_of frame.now }
    ensures few { IfOk result (λ n. n ≤ 16) }
{
    let n = frame.len();
    if n < 1 {
        return Err(malformed(0));
    }
    if frame[0] != Kind::Reading as u8 {
        return Err(malformed(0));
    }
    if n < 2 {
        return Err(malformed(n as u32));
    }
    let count = frame[1];
    if count < 1 || count > 16 {
        return Err(malformed(1));
    }
    Ok(count)
}

// Rule 1 over the whole frame.
pub(crate) fn lay_out(frame: &[u8]) -> Result<Plan, Fault>
    ensures answer { plan_seen result ≡ laid 2 frame.now }
    ensures few { IfOk result (λ p. (length frame.now ≡ p.end) × (2 ≤ p.end)) }
{
    let count = read_count(frame)?;
    let (items, end) = read_all(frame, 2, count as usize, ItemAt::default())?;
    let n = frame.len();
    if n > end {
        return Err(malformed(end as u32));
    }
    Ok(Plan { items, end })
}

// The rule behind rule 1.
pub(crate) fn check_order(plan: &Plan) -> Result<(), Fault>
    ensures { result ≡ ordered (planned plan.now) }
{
    check_rise(Layer::Frame, plan.items.as_slice())
}
