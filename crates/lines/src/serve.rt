// One that is fed bytes, and answers each line as it ends.
use crate::gather::Gather;

pub mod bytes;

#[derive(Drop)]
pub struct Serving<A> {
    answerer: A,
    gather: Gather,
}
