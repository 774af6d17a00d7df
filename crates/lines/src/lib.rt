// What the line programs share: digits, the calls of lines, the bytes of answers, and lines that come in byte by byte.
#![tactic(auto)]

pub mod answer_line;
pub mod call;
pub mod gather;
pub mod hex;
pub mod replies;
pub mod serve;
