// The answer line of a line, or that its kind is not served.
use std::error::Error;
use std::fmt;

pub mod answers;

// A line of a kind that a bank with no commits does not serve.
#[derive(Clone, Copy, PartialEq, Eq, Debug)]
pub struct NotServed;

impl fmt::Display for NotServed {
    fn fmt<W: fmt::Write>(&self, f: &mut fmt::Formatter<W>) -> fmt::Result {
        f.write_str("requests and shares are not served yet")
    }
}

impl Error for NotServed {}
