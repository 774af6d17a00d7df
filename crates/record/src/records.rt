// The records of a frame one by one, from marks of where they stand.
ghost use Rattle.std.specs.Prelude.{◌≡◌, ℕ, List, Option, option_map};
ghost use Rattle.std.specs.Iterator.{YieldsFirstBy, item_count};
ghost use Rattle.record.specs.Shown.{shown};

// A mark that shows the record that it stands for.
pub trait Shows<'a>: Copy {
    type Shown;

    // What a record holds.
    ghost Body: { Type 0 };

    ghost body: { Self.Shown → Body };

    // The record in a frame, if it lies there.
    ghost view: { List ℕ → Self → Option Body };

    fn show(self, frame: &'a [u8]) -> Option<Self::Shown>
        ensures { option_map body result ≡ view frame.now self };
}

// The records that marks show of a frame, up to the first that does not lie there.
#[derive(Drop)]
pub struct Records<'m, 'a, M> {
    frame: &'a [u8],
    marks: &'m [M],
}

impl<'m, 'a, M> Records<'m, 'a, M> {
    pub fn new(frame: &'a [u8], marks: &'m [M]) -> Self
        ensures { (result.frame.now ≡ frame.now) × (result.marks.now ≡ marks.now) }
    {
        Records { frame, marks }
    }
}

impl<'m, 'a, M: Shows<'a>> Iterator for Records<'m, 'a, M> {
    type Item = M::Shown;

    ghost next_gives = { YieldsFirstBy M.Shows.body (λ s. shown M.Shows.view s.frame.now s.marks.now) };

    ghost remaining = { item_count (λ s. shown M.Shows.view s.frame.now s.marks.now) };

    fn next(&mut self) -> Option<M::Shown> {
        let (mark, others) = self.marks.split_first()?;
        let record = mark.show(self.frame)?;
        self.marks = others;
        Some(record)
    }
}
