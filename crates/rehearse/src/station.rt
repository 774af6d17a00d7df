// A reader on the ground: it asks one board for items and a proof, and checks what it was told.
use crate::cluster::{Cluster, Seat};
use crate::tools::{front, push, sure};
use crate::truth::{Truth, Written};
use cluster_size::ClusterSize;
use digest::Digest;
use fault::Fault;
use reader::state::Reader;
use reading::draft::write_reading;
use reading::part::ReadingDraft;
use seal::Seal;
use std::alloc::{AllocError, Global};

// The longest reading, and the longest proof.
const READING: usize = 578;

pub const PROOF: usize = 11813;

// Why a reading came to nothing: its board refused the items or the proof, or the reader refused both.
#[derive(Clone, Copy)]
pub enum Unread {
    NoItems(Fault),
    NoProof(Fault),
    Refused(Fault),
}

// What became of a reading: it is the state after so many commits, or it came to nothing.
#[derive(Clone, Copy)]
pub struct Told(pub Result<u32, Unread>);

impl Told {
    // Whether a reading was accepted and is the state that the acceptance names.
    pub fn is_true(self, truth: &Truth, shown: &[Written]) -> bool {
        self.0.is_ok_and(|m| truth.all_held(m, shown))
    }

    // Whether a reading was accepted and is another state.
    pub fn is_false(self, truth: &Truth, shown: &[Written]) -> bool {
        self.0.is_ok_and(|m| !truth.all_held(m, shown))
    }
}

// A range of versions.
#[derive(Clone, Copy)]
pub struct Versions {
    pub low: u32,
    pub high: u32,
}

impl Versions {
    // From the lowest to the highest version of a reading.
    pub fn of(shown: &[Written]) -> Versions {
        let low = shown.iter().map(|w| w.version).min();
        let high = shown.iter().map(|w| w.version).max();
        Versions {
            low: low.unwrap_or(0),
            high: high.unwrap_or(0),
        }
    }
}

// The items of a reading as its frame takes them.
fn drafts_of<'a>(heap: Global, shown: &'a [Written]) -> Result<Vec<ReadingDraft<'a>>, AllocError> {
    shown
        .iter()
        .map(|w| ReadingDraft {
            item: w.item,
            version: w.version,
            value: w.value.as_slice(),
        })
        .collect(heap)
}

impl<D: Digest + Copy, L: Seal + Copy> Seat<D, L> {
    // What the board tells of some items, or its first refusal.
    pub fn read(
        &self,
        heap: Global,
        items: &[u8],
    ) -> Result<Result<Vec<Written>, Fault>, AllocError> {
        let mut shown = Vec::new(heap);
        for item in items {
            match self.node.item(*item) {
                Ok(told) => push(
                    &mut shown,
                    Written {
                        version: told.version,
                        item: *item,
                        value: told.value,
                    },
                )?,
                Err(fault) => return Ok(Err(fault)),
            }
        }
        Ok(Ok(shown))
    }

    // Checks a reading with the board's proof of some versions.
    fn check(
        &self,
        reader: &Reader<D, L>,
        reading: &[u8],
        versions: Versions,
    ) -> Result<u32, Unread> {
        let mut proof = [0; PROOF];
        let n = self
            .node
            .proof(versions.low, versions.high, &mut proof)
            .map_err(Unread::NoProof)?;
        reader
            .check(reading, front(&proof, n))
            .map_err(Unread::Refused)
    }
}

impl<D: Digest + Copy, L: Seal + Copy> Cluster<D, L> {
    // What board 0 tells of some items.
    pub fn read(&self, items: &[u8]) -> anyhow::Result<Vec<Written>> {
        sure(self.first()?.read(self.heap, items)?)
    }

    // Checks a reading with a board's proof of some versions.
    pub fn check_with(
        &self,
        seat: &Seat<D, L>,
        shown: &[Written],
        versions: Versions,
    ) -> anyhow::Result<Told> {
        let mut reading = [0; READING];
        let drafts = drafts_of(self.heap, shown)?;
        let n = sure(write_reading(drafts.as_slice(), &mut reading))?;
        let size = sure(ClusterSize::new(self.f))?;
        let reader = Reader::new(size, self.suite.digest, self.suite.seal);
        Ok(Told(seat.check(&reader, front(&reading, n), versions)))
    }

    // Reads some items from a board, and checks them with its proof.
    pub fn ask(&self, seat: &Seat<D, L>, items: &[u8]) -> anyhow::Result<(Vec<Written>, Told)> {
        match seat.read(self.heap, items)? {
            Ok(shown) => {
                let told = self.check_with(seat, shown.as_slice(), Versions::of(shown.as_slice()))?;
                Ok((shown, told))
            }
            Err(fault) => Ok((Vec::new(self.heap), Told(Err(Unread::NoItems(fault))))),
        }
    }
}
