// Readings that are to be written.
ghost use Rattle.std.specs.Prelude.{◌≡◌, ◌+◌, ◌≤◌, length, IfOk};
ghost use Rattle.std.specs.List.{flat_map, AllByRecursion};
ghost use Rattle.octets.specs.Parts.{over};
ghost use Rattle.reading.specs.Bodies.{ReadingWrites, write_reading};
ghost use Rattle.reading.specs.Drafts.{count_bytes, count_judged, draft_bytes, drafted, read_item_bytes, read_item_ready, plan_draft};
ghost use Rattle.record.specs.Chains.{after};
ghost use Rattle.reading.specs.Plans.{plan_seen};

use crate::mark::ItemAt;
use crate::part::ReadingDraft;
use crate::plan::{Plan, check_order};
use fault::{Cause, Fault, Layer};
use record::kind::Kind;
use record::malformed;
use record::piece::{plan_all, put_all};

// Rule 1 on the fields before the items.
fn check_count(n: usize) -> Result<(), Fault>
    ensures answer { after result (Ok n) ≡ count_judged n }
    ensures few { IfOk result (λ _. n ≤ 16) }
{
    if n < 1 || n > 16 {
        return Err(malformed(1));
    }
    Ok(())
}

// Rule 1 on all items, and where they will stand.
fn plan_draft(items: &[ReadingDraft]) -> Result<Plan, Fault>
    ensures answer { plan_seen result ≡ plan_draft items.now }
    ensures few { IfOk result (λ p. p.end ≤ 200000) }
{
    check_count(items.len())?;
    let (items, end) = plan_all(items, 2, ItemAt::default())?;
    Ok(Plan { items, end })
}

// The fields before the items.
fn put_head(count: u8, out: &mut [u8])
    requires { 2 ≤ length out.old }
    ensures { out.new ≡ over (count_bytes count) out.old }
{
    out[0] = Kind::Reading as u8;
    out[1] = count;
}

// Puts items to the front of a buffer, each into the bytes behind the one before.
fn put_draft(items: &[ReadingDraft], out: &mut [u8])
    requires few { length items.now ≤ 16 }
    requires ready { AllByRecursion read_item_ready items.now }
    requires room { 2 + length (flat_map read_item_bytes items.now) ≤ length out.old }
    ensures { out.new ≡ over (draft_bytes items.now) out.old }
{
    put_head(items.len() as u8, out);
    put_all(items, &mut out[2..]);
}

// Writes a reading to the front of a buffer, and answers its length.
pub fn write_reading(items: &[ReadingDraft], out: &mut [u8]) -> Result<usize, Fault>
    ensures answer { result ≡ write_reading 2 (drafted items.now) (length out.old) }
    ensures promised { ReadingWrites 2 (drafted items.now) out.old out.new result }
{
    let plan = plan_draft(items)?;
    check_order(&plan)?;
    if out.len() < plan.end {
        return Err(Cause::NoRoom.at(Layer::Frame, 0));
    }
    put_draft(items, out);
    Ok(plan.end)
}
