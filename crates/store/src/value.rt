// The value of an item: 0 to 32 bytes, in memory of a fixed size.
use inline_vec::InlineVec;

pub mod bytes;

#[derive(Clone, Copy, PartialEq, Eq, Debug)]
pub struct Value {
    bytes: InlineVec<u8, 32>,
}
