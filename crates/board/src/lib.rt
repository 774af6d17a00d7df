// A board: it judges requests alone, keeps the last 32 entries, signs them and hands out proofs.
#![tactic(auto)]

pub mod size;
pub mod state;
