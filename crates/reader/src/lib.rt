// The reader's check: a reading is judged against a proof, the entries of the boards with their tags.
#![tactic(auto)]

mod entries;
mod items;
pub mod range;
pub mod state;
mod tags;
pub mod worked;
