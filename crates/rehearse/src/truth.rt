// What the sessions decided, from which the state after any count of commits is told.
use request::item::WriteItem;
use std::alloc::{AllocError, Global};
use store::value::Value;

// One write of a commit.
#[derive(Clone, Copy)]
pub struct Written {
    pub version: u32,
    pub item: u8,
    pub value: Value,
}

#[derive(Drop)]
pub struct Truth {
    writes: Vec<Written>,
}

impl Truth {
    pub fn new(heap: Global) -> Truth {
        Truth {
            writes: Vec::new(heap),
        }
    }

    pub fn note(&mut self, version: u32, write: &WriteItem<'_>) -> Result<(), AllocError> {
        if let Some(value) = Value::new(write.value) {
            self.writes.push(Written {
                version,
                item: write.item,
                value,
            })?;
        }
        Ok(())
    }

    // The last write of an item among the first k commits.
    pub fn left(&self, k: u32, item: u8) -> Option<Written> {
        self.writes
            .iter()
            .rev()
            .find(|w| w.item == item && w.version <= k)
            .copied()
    }

    // Whether an item had this version and value after k commits.
    pub fn held(&self, k: u32, item: u8, version: u32, bytes: &[u8]) -> bool {
        match self.left(k, item) {
            Some(w) => w.version == version && w.value.as_slice() == bytes,
            None => version == 0 && bytes.is_empty(),
        }
    }

    // Whether every item of a reading stood so after k commits.
    pub fn all_held(&self, k: u32, shown: &[Written]) -> bool {
        shown
            .iter()
            .all(|w| self.held(k, w.item, w.version, w.value.as_slice()))
    }
}
