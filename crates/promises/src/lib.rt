// Runs of calls on boards, and the promises over them: what a board's items and verdicts follow from,
// what equal marks mean, and what an accepted reading is.
#![tactic(auto)]

pub mod calls;
pub mod marks;
pub mod readings;
pub mod runs;
