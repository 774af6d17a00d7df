// The bank as a board starts with it: a store, a digest, no commits and the chain's first value.
// Its calls answer what this state means; none changes it.
#![tactic(auto)]

pub mod items;
pub mod state;
