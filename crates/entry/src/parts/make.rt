// How entries are made, and their bytes written.
ghost use Rattle.std.specs.Prelude.{◌≡◌, ◌<◌, ◌≤◌, [], length, Some, None};
ghost use Rattle.octets.specs.Numbers.{limit};
ghost use Rattle.entry.specs.Bodies.{Found, Pushed, entry_body, item_body, pair_body, sealed_body};

use super::{Entry, ItemDigest, Pair, SealedEntry};
use inline_vec::{Full, InlineVec};
use octets::LIMIT;

impl ItemDigest {
    pub fn new(item: u8, digest: [u8; 32]) -> ItemDigest
        ensures { (result.item ≡ item) × (result.digest ≡ digest) }
    {
        ItemDigest { item, digest }
    }
}

impl Pair {
    pub fn new(signer: u8, tag: [u8; 16]) -> Pair
        ensures { (result.signer ≡ signer) × (result.tag ≡ tag) }
    {
        Pair { signer, tag }
    }
}

impl Entry {
    // An entry with no writes yet; none where the version is above the limit.
    pub fn new(version: u32) -> Option<Entry>
        ensures { elim result [ Some e ↦ entry_body e ≡ record { version = version; items = [] } | None ↦ limit 2 < version ] }
    {
        if version > LIMIT {
            return None;
        }
        Some(Entry {
            version,
            items: InlineVec::new(ItemDigest::new(0, [0; 32])),
        })
    }

    pub fn version(&self) -> u32
        ensures { (result ≡ (entry_body self.now).version) × (result ≤ limit 2) }
    {
        self.version
    }

    pub fn len(&self) -> u8
        ensures { (result ≡ length (entry_body self.now).items) × (result ≤ 8) }
    {
        self.items.len() as u8
    }

    // One write more; refused, and nothing changed, where there are eight.
    pub fn push(&mut self, item: ItemDigest) -> Result<(), Full>
        ensures { (Pushed item_body 8 (entry_body self.old).items (entry_body self.new).items item result) × (self.new.version ≡ self.old.version) }
    {
        self.items.push(item)
    }

    // The write at a place, if there is one.
    pub fn item(&self, i: u8) -> Option<ItemDigest>
        ensures { Found item_body (entry_body self.now).items i result }
    {
        self.items().get(usize::from(i)).copied()
    }
}

impl SealedEntry {
    // An entry with no shares yet.
    pub fn new(entry: Entry) -> SealedEntry
        ensures { sealed_body result ≡ record { entry = entry_body entry; pairs = [] } }
    {
        SealedEntry {
            entry,
            pairs: InlineVec::new(Pair::new(0, [0; 16])),
        }
    }

    pub fn entry(&self) -> Entry
        ensures { result ≡ self.now.entry }
    {
        self.entry
    }

    pub fn len(&self) -> u8
        ensures { (result ≡ length (sealed_body self.now).pairs) × (result ≤ 6) }
    {
        self.pairs.len() as u8
    }

    // One share more; refused, and nothing changed, where there are six.
    pub fn push(&mut self, pair: Pair) -> Result<(), Full>
        ensures { (Pushed pair_body 6 (sealed_body self.old).pairs (sealed_body self.new).pairs pair result) × (self.new.entry ≡ self.old.entry) }
    {
        self.pairs.push(pair)
    }

    // The share at a place, if there is one.
    pub fn pair(&self, i: u8) -> Option<Pair>
        ensures { Found pair_body (sealed_body self.now).pairs i result }
    {
        self.pairs().get(usize::from(i)).copied()
    }
}
