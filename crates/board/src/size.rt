// A board's place among the boards, checked before a board is made from it.
ghost use Rattle.std.specs.Prelude.{◌<◌};
ghost use Rattle.cluster_size.specs.Sizes.{members};

use cluster_size::ClusterSize;

pub mod check;

// A board's number is below the number of boards.
#[derive(Clone, Copy)]
pub struct Place {
    size: ClusterSize,
    number: u8,
    ghost member: { number < members size.f },
}
