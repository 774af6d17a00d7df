// What a board says to lines: from a line of hexadecimal digits to the answer line.
#![tactic(auto)]

pub mod reply;
pub mod serve;
