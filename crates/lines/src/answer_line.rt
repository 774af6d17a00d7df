// The answer line of a line: at most N digits.
// It is no list that grows, since the digits are written to a slice, and such a list lends none to be written.
ghost use Rattle.std.specs.Prelude.{◌≡◌, ◌≤◌, length};

pub mod show;

#[derive(Drop)]
pub struct AnswerLine<const N: usize> {
    digits: [u8; N],
    len: usize,
    ghost within: { len ≤ N },
    ghost whole: { length digits ≡ N },
}
