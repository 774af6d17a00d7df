// SHA-256 as FIPS 180-4 defines it, over a message handed in as two parts.
// It takes at most 65,535 bytes and copies no more of them than one block and the padded end.
#![tactic(auto)]

mod block;
mod constants;
mod functions;
mod message;

pub use constants::constant;
pub use message::{bytes, follows_standard, hash, hash_behind};
