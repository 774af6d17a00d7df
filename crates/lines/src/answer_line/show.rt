// How the digits of an answer are shown.
ghost use Rattle.std.specs.Prelude.{◌≡◌, ◌*◌, ◌/◌, ◌<◌, ◌≤◌, ◌++◌, [], length, take, drop};
ghost use Rattle.lines.specs.Hex.{digit_of, hex};
ghost use Rattle.lines.specs.Shown.{digits_of};

use super::AnswerLine;

// A digit of lower case for a value below 16.
fn digit_of(v: u8) -> u8
    requires { v < 16 }
    ensures { result ≡ digit_of v }
{
    if v < 10 { b'0' + v } else { 87 + v }
}

// The digits of the bytes go to the front of `out`, which has room for them.
fn encode(bytes: &[u8], out: &mut [u8])
    requires { 2 * length bytes.now ≤ length out.old }
    ensures { out.new ≡ hex bytes.now ++ drop (2 * length bytes.now) out.old }
{
    // By index, with a digit of its own: with the library's encoder a proof of 32 entries takes a third more instructions.
    for i in 0..bytes.len() {
        let b = bytes[i];
        out[2 * i] = digit_of(b / 16);
        out[2 * i + 1] = digit_of(b % 16);
    }
}

impl<const N: usize> AnswerLine<N> {
    // No digits yet.
    pub fn new() -> AnswerLine<N>
        ensures { digits_of result ≡ [] }
    {
        AnswerLine {
            digits: [0; N],
            len: 0,
        }
    }

    // The digits of an answer, in place of those that were there: of as many of its bytes as have room.
    pub fn show(&mut self, bytes: &[u8])
        ensures front { digits_of self.new ≡ hex (take (N / 2) bytes.now) }
        ensures whole { 2 * length bytes.now ≤ N → digits_of self.new ≡ hex bytes.now }
    {
        let shown = &bytes[..bytes.len().min(N / 2)];
        encode(shown, &mut self.digits);
        self.len = 2 * shown.len();
    }

    pub fn as_slice(&self) -> &[u8]
        ensures { result.now ≡ digits_of self.now }
    {
        let digits = &self.digits[..];
        &digits[..self.len]
    }
}
