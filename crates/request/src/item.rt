// What a request that is to be written is made of.
ghost use Rattle.std.specs.Prelude.{◌≡◌, length};

// A read that is to be written.
#[derive(Clone, Copy)]
pub struct ReadItem {
    pub item: u8,
    pub version: u32,
    pub digest: [u8; 32],
    ghost whole: { length digest ≡ 32 },
}

impl ReadItem {
    pub fn new(item: u8, version: u32, digest: [u8; 32]) -> Self
        ensures { (result.item ≡ item) × ((result.version ≡ version) × (result.digest ≡ digest)) }
    {
        ReadItem {
            item,
            version,
            digest,
        }
    }
}

// A write that is to be written.
#[derive(Clone, Copy)]
pub struct WriteItem<'a> {
    pub item: u8,
    pub value: &'a [u8],
}
