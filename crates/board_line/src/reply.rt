// The answer line of a line.

pub mod answers;
mod puts;

// The bytes of the longest answer: 00 and the longest proof.
pub(crate) const LONGEST_ANSWER: usize = 11814;
