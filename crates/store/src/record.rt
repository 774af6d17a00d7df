// What a store keeps of one item.
ghost use Rattle.std.specs.Prelude.{◌≡◌, length};

use crate::value::Value;

pub mod made;

#[derive(Clone, Copy, PartialEq, Eq, Debug)]
pub struct Record {
    pub version: u32,
    pub value: Value,
    pub digest: [u8; 32],
    ghost whole: { length digest ≡ 32 },
}
