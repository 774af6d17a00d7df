// The bytes of each answer that is no frame.
ghost use Rattle.std.specs.Prelude.{◌≡◌, Ok};
ghost use Rattle.inline_vec.specs.Lists.{items};
ghost use Rattle.store.specs.Slot.{slot};
ghost use Rattle.lines.specs.Replies.{item_bytes, mark_bytes, no_call_bytes, refusal_bytes, reply, wire};

use fault::{Cause, Fault, Layer};
use inline_vec::InlineVec;
use store::record::Record;

// A number at the width of a version; a larger one by its low bytes.
pub fn wire(n: u32) -> [u8; 2]
    ensures { result ≡ wire n }
{
    ((n & 0xffff) as u16).to_be_bytes()
}

// A refusal: ff, its number, its layer's letter and its place.
pub fn refusal_bytes(fault: Fault) -> [u8; 5]
    ensures { result ≡ refusal_bytes fault }
{
    let [high, low] = wire(fault.place);
    [0xff, fault.cause.into(), fault.layer.into(), high, low]
}

// A line that asks for no call is refused.
pub fn no_call_bytes() -> [u8; 5]
    ensures { result ≡ no_call_bytes }
{
    refusal_bytes(Cause::Malformed.at(Layer::Frame, 0))
}

// An item: 00, its version, its value's length, the value and its digest.
pub fn item_reply(row: Record) -> InlineVec<u8, 68>
    ensures { items result ≡ reply item_bytes (Ok (slot row)) }
{
    let [high, low] = wire(row.version);
    // All of it has room: a value has at most 32 bytes.
    let mut bytes = InlineVec::new(0);
    let _ = bytes.extend_from_slice(&[0, high, low, row.value.len()]);
    let _ = bytes.extend_from_slice(row.value.as_slice());
    let _ = bytes.extend_from_slice(&row.digest);
    bytes
}

// A mark: 00, the count of commits and the chain.
pub fn mark_reply(count: u32, chain: &[u8; 32]) -> [u8; 35]
    ensures { result ≡ reply (mark_bytes count) (Ok chain.now) }
{
    let [high, low] = wire(count);
    let mut bytes = [0; 35];
    bytes[..3].copy_from_slice(&[0, high, low]);
    bytes[3..].copy_from_slice(chain);
    bytes
}
