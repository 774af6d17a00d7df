// How many boards there are, and how many of them may lie, checked before anything is made of it.
#![tactic(auto)]

ghost use Rattle.std.specs.Prelude.{◌≤◌};

mod checked;

// Of 3f + 1 boards up to f may lie.
#[derive(Clone, Copy)]
pub struct ClusterSize {
    f: u8,
    ghost some: { 1 ≤ f },
    ghost few: { f ≤ 5 },
}
