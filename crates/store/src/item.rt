// The number of an item. A number that is no item cannot reach a store.
ghost use Rattle.std.specs.Prelude.{◌≡◌, ◌<◌, ◌≤◌, Some, None, MatchResult};

#[derive(Clone, Copy, PartialEq, Eq, PartialOrd, Ord, Debug)]
pub struct Item {
    number: u8,
    ghost below: { number < 64 },
}

// The items end at 63.
#[derive(Clone, Copy, PartialEq, Eq, Debug)]
pub struct NoItem;

impl TryFrom<u8> for Item {
    type Error = NoItem;

    ghost try_from_gives = { λ number r. MatchResult r (λ i. i.number ≡ number) (λ _. 64 ≤ number) };

    fn try_from(number: u8) -> Result<Item, NoItem> {
        if number < 64 {
            Ok(Item { number })
        } else {
            Err(NoItem)
        }
    }
}

impl Item {
    pub fn new(number: u8) -> Option<Item>
        ensures { elim result [ Some i ↦ i.number ≡ number | None ↦ 64 ≤ number ] }
    {
        Item::try_from(number).ok()
    }

    pub fn number(self) -> u8
        ensures { (result ≡ self.number) × (result < 64) }
    {
        self.number
    }
}
