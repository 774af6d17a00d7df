// Comparisons and printing are those of the values in order; what the other places hold counts for nothing.
ghost use Rattle.std.specs.Cmp.{on_equiv, on_per};
ghost use Rattle.std.specs.Cmp.Lexicographic.{lists_equiv, lists_per, pointwise};
ghost use Rattle.inline_vec.specs.Lists.{items};

use super::InlineVec;
use std::fmt;

impl<T: PartialEq, const N: usize> PartialEq for InlineVec<T, N> {
    ghost eq = { λ v w. pointwise T.eq (items v) (items w) };

    ghost laws = { on_per items (lists_per T.laws) };

    fn eq(&self, other: &Self) -> bool {
        self.as_slice() == other.as_slice()
    }
}

impl<T: Eq, const N: usize> Eq for InlineVec<T, N> {
    ghost laws = { on_equiv items (lists_equiv T.Eq.laws) };
}

impl<T: fmt::Debug, const N: usize> fmt::Debug for InlineVec<T, N> {
    fn fmt<W: fmt::Write>(&self, f: &mut fmt::Formatter<W>) -> fmt::Result {
        f.debug_list().entries(self.as_slice()).finish()
    }
}
