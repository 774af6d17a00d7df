// A client's session for one request: it takes the boards' replies, and is decided once f + 1 different boards agree.
// Up to f boards may answer anything, so what f + 1 boards say at least one honest board says.
#![tactic(auto)]

mod heard;
pub mod replies;
pub mod runs;
pub mod state;
pub mod worked;
