// What a bank with no commits says to lines: from a line of hexadecimal digits to the answer line.
#![tactic(auto)]

pub mod call;
pub mod reply;
pub mod serve;
