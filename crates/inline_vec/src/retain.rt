// How a list drops values in place.
ghost use Rattle.std.specs.Prelude.{Bool, List};
ghost use Rattle.inline_vec.specs.Lists.{KeepsByRest, items};

use super::InlineVec;

// A test of whether a value stays, which is shown the value and all behind it.
// A trait and no closure: whoever calls a closure has to require that it may be called.
pub trait RestTest<T> {
    // What the test may answer.
    ghost told: { Self → T → List T → Bool → Type 0 };

    fn keeps(&self, value: &T, rest: &[T]) -> bool
        ensures { told self.now value.now rest.now result };
}

impl<T: Copy, const N: usize> InlineVec<T, N> {
    // Keeps, in their order, the values that a test accepts.
    pub fn retain_by_rest<K: RestTest<T>>(&mut self, test: &K)
        ensures { KeepsByRest (K.told test.now) (items self.old) (items self.new) }
    {
        let len = self.len;
        let mut kept = 0;
        for i in 0..len {
            let value = self.places[i];
            let places = &self.places[..];
            if test.keeps(&value, &places[i + 1..len]) {
                self.places[kept] = value;
                kept += 1;
            }
        }
        self.len = kept;
    }
}
