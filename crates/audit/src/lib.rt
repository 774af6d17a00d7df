// An audit settles which boards are right without a vote: requests in bus order are replayed on a board of its own,
// and each mark that a board reports is held to the replay's.
#![tactic(auto)]

pub mod answers;
pub mod state;
pub mod track;
