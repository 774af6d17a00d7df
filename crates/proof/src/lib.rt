// Proofs: entries with the tags of f + 1 boards over each, read in place and written to a caller's buffer.
#![tactic(auto)]

mod draft;
mod kind;
pub mod part;
mod range;
pub mod read;
mod scan;
mod weigh;
pub mod write;
