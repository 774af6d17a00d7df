// The last 32 entries of a board, each with the shares that came in for it.
// Version v stands in place v % 32, so that a new entry takes the place of that of 32 versions before.
#![tactic(auto)]

pub mod ring;
mod slot;
