// The sequence numbers of clients: a request uses one up, and the verdict on it opens the next.
// Four are open at a time, from 1 on, until the largest number was opened.
#![tactic(auto)]

pub mod client;
pub mod clients;
pub mod worked;
