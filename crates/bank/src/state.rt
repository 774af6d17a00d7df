// What a bank is made of.
ghost use Rattle.std.specs.Prelude.{◌≡◌, length};

pub use answer::mark::Mark;
use digest::Digest;
use store::Store;

pub mod calls;

// The chain starts as 32 zero bytes, and the count of commits as 0.
#[derive(Drop)]
pub struct Bank<S: Store, D: Digest> {
    store: S,
    digest: D,
    count: u32,
    chain: [u8; 32],
    ghost start: { count ≡ 0 },
    ghost whole: { length chain ≡ 32 },
}
