// One board of the cluster: honest over a table, honest over a log, or wrong.
use crate::tools::sure;
use crate::ways::Way;
use crate::wrong::Wrong;
use anyhow::Context;
use board::size::Place;
use board::state::{Board, Mark};
use digest::Digest;
use fault::Fault;
use history::Delivery;
use log_store::records::LogRecord;
use log_store::{Log, LogMemory};
use seal::Seal;
use std::alloc::Global;
use store::Store;
use store::item::Item;
use store::record::Record;
use store::table::Table;

// What all boards of a cluster digest and seal with.
#[derive(Clone, Copy, Drop)]
pub struct Suite<D, L> {
    pub digest: D,
    pub seal: L,
}

// An enum, since the check does not cover a `dyn` that is made of a board with type parameters.
#[derive(Drop)]
pub enum Node<D: Digest, L: Seal> {
    OnTable(Box<Board<Table, D, L>>),
    OnLog(Box<Board<Log<96>, D, L>>),
    Bent(Box<Wrong<D, L>>),
}

// Asks the board, whichever kind it is of.
macro_rules! ask {
    ($node:expr, $board:ident => $call:expr) => {
        match $node {
            Node::OnTable($board) => $call,
            Node::OnLog($board) => $call,
            Node::Bent($board) => $call,
        }
    };
}

// Memory for a log of 96 records.
fn log_memory() -> anyhow::Result<LogMemory<96>> {
    let item = Item::new(0).context("there is no item 0")?;
    let row = Record::blank();
    sure(LogMemory::new([LogRecord { item, row }; 96]))
}

impl<D: Digest + Copy, L: Seal + Copy> Node<D, L> {
    // A board that is wrong in a way, or honest: an even number has a table, an odd one a log.
    pub fn new(
        heap: Global,
        place: Place,
        way: Option<Way>,
        suite: Suite<D, L>,
    ) -> anyhow::Result<Node<D, L>> {
        let Suite { digest, seal } = suite;
        if let Some(way) = way {
            let board = Wrong::new(heap, place, way, suite);
            return Ok(Node::Bent(Box::new(heap, board)?));
        }
        if place.number() % 2 == 0 {
            let board = Board::new(place, (), digest, seal);
            return Ok(Node::OnTable(Box::new(heap, board)?));
        }
        let board = Board::new(place, log_memory()?, digest, seal);
        Ok(Node::OnLog(Box::new(heap, board)?))
    }

    pub fn store(&self) -> &'static str {
        match self {
            Node::OnTable(_) | Node::Bent(_) => "table",
            Node::OnLog(_) => "log",
        }
    }

    pub fn way(&self) -> Option<Way> {
        match self {
            Node::Bent(board) => Some(board.way),
            _ => None,
        }
    }

    pub fn deliver(&mut self, frame: &[u8]) -> Result<Delivery, Fault> {
        ask!(self, board => board.deliver(frame))
    }

    pub fn item(&self, item: u8) -> Result<Record, Fault> {
        ask!(self, board => board.item(item))
    }

    pub fn mark(&self) -> Mark {
        ask!(self, board => board.mark())
    }

    pub fn share_out(&self, version: u32, out: &mut [u8]) -> Result<usize, Fault> {
        ask!(self, board => board.share_out(version, out))
    }

    pub fn share_in(&mut self, frame: &[u8]) -> Result<u8, Fault> {
        ask!(self, board => board.share_in(frame))
    }

    pub fn proof(&self, low: u32, high: u32, out: &mut [u8]) -> Result<usize, Fault> {
        ask!(self, board => board.proof(low, high, out))
    }
}
