// One entry with its shares: a tag for each signer that sent one.
ghost use Rattle.std.specs.Prelude.{◌≡◌, length};

use entry::parts::Entry;

pub mod shares;

#[derive(Clone, Copy)]
pub struct Slot {
    pub entry: Entry,
    tags: [Option<[u8; 16]>; 16],
    ghost whole: { length tags ≡ 16 },
}
