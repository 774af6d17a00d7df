// What every family shares: a tally, cases from lines, and the places at which messages are cut.
use anyhow::{Context, anyhow};
use std::alloc::{AllocError, Global};
use std::fmt;

// How many cases came out as expected, of how many.
#[derive(Clone, Copy, Default)]
pub struct Tally {
    passed: u32,
    of: u32,
}

impl Tally {
    pub fn count(&mut self, right: bool) {
        self.of = self.of.saturating_add(1);
        if right {
            self.passed = self.passed.saturating_add(1);
        }
    }

    pub fn is_full(self) -> bool {
        self.passed == self.of
    }
}

impl fmt::Display for Tally {
    fn fmt<W: fmt::Write>(&self, f: &mut fmt::Formatter<W>) -> fmt::Result {
        let Tally { passed, of } = *self;
        write!(f, "{passed} of {of}")
    }
}

// Counts the lines of a text that a check finds right.
pub(crate) fn each_line<F: Fn(&str) -> anyhow::Result<bool>>(
    text: &str,
    right: F,
) -> anyhow::Result<Tally>
    requires { F.IsAlwaysCallable right }
{
    let mut tally = Tally::default();
    for line in text.lines() {
        tally.count(right(line)?);
    }
    Ok(tally)
}

// A message, and the value that is expected of it.
#[derive(Drop)]
pub struct Case {
    pub message: Vec<u8>,
    pub expected: Vec<u8>,
}

impl Case {
    // From a line with the message and the value, in hexadecimal digits.
    pub fn given(heap: Global, line: &str) -> anyhow::Result<Case> {
        let (message, value) = fields(line)?;
        Case::written(heap, message, value)
    }

    // From the message and the value, in hexadecimal digits.
    pub fn written(heap: Global, message: &str, value: &str) -> anyhow::Result<Case> {
        Ok(Case {
            message: unhex(heap, message)?,
            expected: unhex(heap, value)?,
        })
    }

    // From a line with the length of a pattern and the value.
    pub fn of_length(heap: Global, line: &str) -> anyhow::Result<Case> {
        let (length, value) = fields(line)?;
        Ok(Case {
            message: pattern(heap, length.parse::<usize>()?)?,
            expected: unhex(heap, value)?,
        })
    }
}

// No `to_digit`: it takes capitals too.
fn digit(b: u8) -> anyhow::Result<u8> {
    match b {
        b'0'..=b'9' => Ok(b - b'0'),
        b'a'..=b'f' => Ok(b - b'a' + 10),
        _ => Err(anyhow!("no hexadecimal digit")),
    }
}

// The byte that two digits write.
fn byte(digits: &[u8]) -> anyhow::Result<u8> {
    let [high, low] = digits else {
        return Err(anyhow!("an odd number of digits"));
    };
    Ok((digit(*high)? << 4) | digit(*low)?)
}

// The bytes that a text of hexadecimal digits writes.
pub fn unhex(heap: Global, text: &str) -> anyhow::Result<Vec<u8>> {
    text.as_bytes().chunks(2).map(byte).try_collect(heap)
}

// The bytes 0 to 250 over and over, n of them.
pub fn pattern(heap: Global, n: usize) -> Result<Vec<u8>, AllocError> {
    (0..=250u8).cycle().take(n).collect(heap)
}

// The first field of a line and the rest of it, which a blank parts.
pub fn fields(line: &str) -> anyhow::Result<(&str, &str)> {
    line.split_once(' ').context("a line with one field")
}

// A message in two parts, cut at a place; one behind the end cuts nothing off.
pub fn cut(message: &[u8], at: usize) -> (&[u8], &[u8]) {
    message.split_at(at.min(message.len()))
}

// Counts the cuts of a message one byte above the longest at which it is refused.
pub(crate) fn too_long<F: Fn(&[u8], &[u8]) -> bool>(
    heap: Global,
    refuses: F,
) -> Result<Tally, AllocError>
    requires { F.IsAlwaysCallable refuses }
{
    let long = pattern(heap, 65536)?;
    let mut tally = Tally::default();
    for at in [0, 1, 64, 65535, 65536] {
        let (head, rest) = cut(long.as_slice(), at);
        tally.count(refuses(head, rest));
    }
    Ok(tally)
}
