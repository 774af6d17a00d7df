// What is kept of one board's reports.

pub mod notes;

// Its last right report before its first wrong one, and that one.
#[derive(Clone, Copy)]
pub struct Track {
    right: Option<u32>,
    wrong: Option<u32>,
}
