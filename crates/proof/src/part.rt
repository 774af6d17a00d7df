// The parts of one entry of a proof, as they stand in the frame.
ghost use Rattle.std.specs.Prelude.{◌≡◌, ℕ, length};
ghost use Rattle.std.specs.Iterator.{at_most};
ghost use Rattle.entry.specs.Bodies.{SealedBody};
ghost use Rattle.proof.specs.Parts.{FoundAt, Inside, ItemHolds, PairHolds, PartHolds, tag_place};
ghost use Rattle.proof.specs.Turns.{BeforeItem, BeforePair, GivesItem, GivesPair, pairs_place};

// The most bytes of a body: eight writes.
const BODY: usize = 267;

// The farthest place of an entry of which a pair is given.
const FARTHEST: u32 = 1_000_000;

// An entry with its pairs. The body is what is sealed; the place is where it begins in the frame.
#[derive(Clone, Copy)]
pub struct SealedPart<'a> {
    pub version: u32,
    pub place: u32,
    pub body: &'a [u8],
    pub pairs: &'a [u8],
}

// A write: the item, and the digest of the value.
#[derive(Clone, Copy)]
pub struct ItemPart<'a> {
    pub item: u8,
    pub digest: &'a [u8],
}

// A pair: the signer, and its tag with the tag's place.
#[derive(Clone, Copy)]
pub struct PairPart<'a> {
    pub signer: u8,
    pub tag: &'a [u8],
    pub place: u32,
}

// The writes of an entry, from the front; the bytes are those of the writes that are left.
#[derive(Drop)]
pub struct Items<'a> {
    left: &'a [u8],
}

// The pairs of an entry, from the front, and where the first that is left begins in the frame.
#[derive(Drop)]
pub struct Pairs<'a> {
    left: &'a [u8],
    place: u32,
}

impl<'a> Iterator for Items<'a> {
    type Item = ItemPart<'a>;

    ghost next_gives = { GivesItem };

    ghost remaining = { λ s. at_most (length s.left.now) };

    fn next(&mut self) -> Option<ItemPart<'a>> {
        let (one, others) = self.left.split_at_checked(33)?;
        self.left = others;
        Some(ItemPart {
            item: one[0],
            digest: &one[1..],
        })
    }
}

// Beside the writes' iterator, since a tag has its place in the frame and a digest needs none.
impl<'a> Iterator for Pairs<'a> {
    type Item = PairPart<'a>;

    ghost next_gives = { GivesPair };

    ghost remaining = { λ s. at_most (length s.left.now) };

    fn next(&mut self) -> Option<PairPart<'a>> {
        let (one, others) = self.left.split_at_checked(17)?;
        let place = self.place.saturating_add(1);
        self.left = others;
        self.place = self.place.saturating_add(17);
        Some(PairPart {
            signer: one[0],
            tag: &one[1..],
            place,
        })
    }
}

impl<'a> SealedPart<'a> {
    // The writes, behind the version and their count.
    pub fn items(self) -> Items<'a>
        ensures { (f at : ℕ) (s : SealedBody) → PartHolds f at self.entry s → BeforeItem s.entry.items 0 result }
    {
        Items {
            left: self.body.get(3..).unwrap_or(&[]),
        }
    }

    // The pairs, behind the body.
    pub fn pairs(self) -> Pairs<'a>
        ensures { (f at : ℕ) (s : SealedBody) → PartHolds f at self.entry s → BeforePair (pairs_place 2 at s) s.pairs 0 result }
    {
        Pairs {
            left: self.pairs,
            place: self.place.saturating_add(self.body.len().min(BODY) as u32),
        }
    }

    // Write k of the entry, or none behind the last.
    pub fn item(self, k: u8) -> Option<ItemPart<'a>>
        ensures found { (f at : ℕ) (s : SealedBody) → PartHolds f at self.entry s → FoundAt ItemHolds s.entry.items k result }
        ensures long { Inside (λ x. length x.digest.now ≡ 32) result }
    {
        let mut rest = Items {
            left: self.body.get(3 + 33 * usize::from(k)..)?,
        };
        rest.next()
    }

    // Pair k of the entry, or none behind the last.
    pub fn pair(self, k: u8) -> Option<PairPart<'a>>
        ensures found { (f at : ℕ) (s : SealedBody) → PartHolds f at self.entry s → FoundAt (PairHolds (tag_place 2 at s k)) s.pairs k result }
        ensures long { Inside (λ x. length x.tag.now ≡ 16) result }
    {
        if self.place > FARTHEST || self.body.len() > BODY {
            return None;
        }
        let at = 17 * usize::from(k);
        let mut rest = Pairs {
            left: self.pairs.get(at..)?,
            place: self.place + (self.body.len() + at) as u32,
        };
        rest.next()
    }
}
