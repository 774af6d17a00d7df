// How a line is gathered and read.
ghost use Rattle.std.specs.Prelude.{◌≡◌, [], ◌∷◌, ◌++◌, length, ◌==◌};
ghost use Rattle.lines.specs.Gathers.{gathered};
ghost use Rattle.lines.specs.Lines.{kept_of};

use super::Gather;
use inline_vec::InlineVec;

impl Gather {
    pub fn new() -> Gather
        ensures { gathered result ≡ [] }
    {
        Gather {
            kept: InlineVec::new(0),
        }
    }

    // One byte more of the line, where it is not too long already.
    pub fn push(&mut self, b: u8)
        ensures { gathered self.new ≡ kept_of (gathered self.old ++ b ∷ []) }
    {
        let _ = self.kept.push(b);
    }

    // The line begins anew.
    pub fn clear(&mut self)
        ensures { gathered self.new ≡ [] }
    {
        self.kept.clear();
    }

    pub fn is_empty(&self) -> bool
        ensures { result ≡ (length (gathered self.now) == 0) }
    {
        self.kept.is_empty()
    }

    pub fn as_slice(&self) -> &[u8]
        ensures { result.now ≡ gathered self.now }
    {
        self.kept.as_slice()
    }
}
