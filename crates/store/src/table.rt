// A store that is a table: a row for each item.
ghost use Rattle.store.specs.Rows.{rows};

use crate::Store;
use crate::item::Item;
use crate::record::Record;

#[derive(Drop)]
pub struct Table {
    rows: [Record; 64],
}

impl Store for Table {
    type Memory = ();

    ghost holds = { rows };

    fn new(memory: ()) -> Table {
        let row = Record::blank();
        let rows = [row; 64];
        Table { rows }
    }

    fn look_up(&self, item: Item) -> Record {
        self.rows[item.number() as usize]
    }

    fn install(&mut self, item: Item, row: Record) {
        self.rows[item.number() as usize] = row;
    }
}
