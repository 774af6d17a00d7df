// Calls on a board, and their answers.
use board::size::Place;
use board::state::Mark;
use fault::Fault;
use history::Delivery;
use store::record::Record;

// A call; one that writes is lent so many bytes of a buffer, or the whole of it.
#[derive(Clone, Copy, PartialEq, Eq, Debug)]
pub enum Call<'a> {
    Deliver(&'a [u8]),
    Item(u8),
    Mark,
    ShareOut { version: u32, room: usize },
    ShareIn(&'a [u8]),
    Proof { low: u32, high: u32, room: usize },
}

#[derive(Clone, Copy)]
pub enum Answer {
    Delivered(Result<Delivery, Fault>),
    Asked(Result<Record, Fault>),
    Marked(Mark),
    SharedOut(Result<usize, Fault>),
    SharedIn(Result<u8, Fault>),
    Proved(Result<usize, Fault>),
}

// What a board is made from.
#[derive(Drop)]
pub struct Start<M, D, L> {
    pub place: Place,
    pub memory: M,
    pub digest: D,
    pub seal: L,
}
