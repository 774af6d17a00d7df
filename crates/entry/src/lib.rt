// An entry is what a commit leaves to be signed: its version and, for each write, the item and the value's digest.
// A sealed entry carries the shares that a reader asks for.
#![tactic(auto)]

pub mod parts;
