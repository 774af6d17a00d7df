// How a wrong board judges a request.
use super::Wrong;
use crate::ways::Way;
use digest::Digest;
use request::{Read, Request};
use seal::Seal;

// What the board inside is to make of a request.
pub enum Opinion {
    Its,
    Fails,
    Passes,
}

impl<D: Digest + Copy, L: Seal + Copy> Wrong<D, L> {
    // Whether a read is of an entry that is no longer kept.
    fn is_old(&self, read: Read<'_>) -> bool {
        let count = self.inner.mark().count;
        read.version > 0 && read.version.saturating_add(32) <= count
    }

    // Whether a commit wrote the digest to the item, whatever its version.
    fn ever_written(&self, read: Read<'_>) -> bool {
        self.rows.iter().any(|row| row.item == read.item
            && row.record.digest.as_slice() == read.digest)
    }

    // Whether an abort left another version of the item behind.
    fn is_spoilt(&self, read: Read<'_>) -> bool {
        self.last_row(read.item)
            .is_some_and(|record| record.version != read.version)
    }

    pub fn opinion(&self, request: Request<'_>) -> Opinion {
        let mut reads = request.reads();
        match self.way {
            Way::AlwaysAborts => Opinion::Fails,
            Way::WindowOnly if reads.any(|read| self.is_old(read)) => Opinion::Fails,
            Way::InstallsEarly if reads.any(|read| self.is_spoilt(read)) => Opinion::Fails,
            Way::AnyEntry if reads.all(|read| self.ever_written(read)) => Opinion::Passes,
            _ => Opinion::Its,
        }
    }
}
