// What an audit is made of.
use crate::track::Track;
use board::state::Board;

pub mod calls;
pub mod looks;

// How many boards there can be.
pub const BOARDS: usize = 16;

// The board that requests are replayed on, how many reports were judged, and what is kept of each board's.
#[derive(Drop)]
pub struct Audit<S, D, L> {
    board: Board<S, D, L>,
    reports: u32,
    tracks: [Track; BOARDS],
}
