// A list whose values lie in the value itself: at most N of them, no heap, and copied as they are.
#![tactic(auto)]

ghost use Rattle.std.specs.Prelude.{◌≡◌, ◌≤◌, length};

mod calls;
mod impls;
mod retain;

pub use calls::Full;
pub use retain::RestTest;
use std::alloc::AllocError;

// The first `len` places count, whatever the others hold.
pub struct InlineVec<T, const N: usize> {
    places: [T; N],
    len: usize,
    ghost within: { len ≤ N },
    ghost whole: { length places ≡ N },
}

impl<T: Copy, const N: usize> Copy for InlineVec<T, N> {}

impl<T: Copy, const N: usize> Clone for InlineVec<T, N> {
    ghost is_clone = { λ v w. w ≡ v };

    ghost is_infallible = { λ _. Unit {0} };

    fn clone(&self) -> Result<Self, AllocError> {
        Ok(*self)
    }
}
