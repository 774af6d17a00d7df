// What a board keeps: a version, a value and a digest for each of 64 items.
// `Store` is the interface that a board is built on, `Table` the plainest store that meets it.
#![tactic(auto)]

ghost use Rattle.std.specs.Prelude.{◌≡◌, ℕ, ◌<◌, ◌≢◌};
ghost use Rattle.store.specs.Slot.{Slot, slot, blank};

pub mod item;
pub mod record;
pub mod table;
pub mod value;

use item::Item;
use record::Record;

pub trait Store: Sized {
    // What a store is made from; a memory that could be too small is checked when it is built.
    type Memory;

    // What the store means: what it holds for each item.
    ghost holds: { Self → ℕ → Slot };

    fn new(memory: Self::Memory) -> Self
        ensures { (k : ℕ) → k < 64 → holds result k ≡ blank };

    fn look_up(&self, item: Item) -> Record
        ensures { slot result ≡ holds self.now item.number };

    fn install(&mut self, item: Item, row: Record)
        ensures sets { holds self.new item.number ≡ slot row }
        ensures others { (k : ℕ) → (k ≢ item.number) → holds self.new k ≡ holds self.old k };
}
