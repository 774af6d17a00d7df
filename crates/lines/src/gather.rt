// A line as it comes in, byte by byte: as much of it is kept as tells it from a line that is not too long.
use inline_vec::InlineVec;

pub mod bytes;

// One byte more than the longest line has.
#[derive(Drop)]
pub struct Gather {
    kept: InlineVec<u8, 1709>,
}
