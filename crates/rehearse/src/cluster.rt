// A cluster of 3f + 1 boards, the wrong ones last.
use crate::node::{Node, Suite};
use crate::outcomes::{Answer, Tally};
use crate::tools::{one_more, push, sure};
use crate::words::Wish;
use anyhow::Context;
use board::size::Place;
use board::state::Mark;
use cluster_size::ClusterSize;
use decision::Decision;
use digest::Digest;
use seal::Seal;
use session::state::Session;
use std::alloc::{AllocError, Global};

#[derive(Drop)]
pub struct Seat<D: Digest, L: Seal> {
    pub node: Node<D, L>,
    pub tally: Tally,
}

#[derive(Drop)]
pub struct Cluster<D: Digest, L: Seal> {
    pub heap: Global,
    pub f: u8,
    pub honest: usize,
    pub suite: Suite<D, L>,
    pub seats: Vec<Seat<D, L>>,
}

// What a session decided, if it did, and how many replies it took.
#[derive(Clone, Copy)]
pub struct Ruling {
    pub decision: Option<Decision>,
    pub replies: u32,
}

impl<D: Digest + Copy, L: Seal + Copy> Cluster<D, L> {
    // A cluster whose last boards are wrong, the first way at the last board.
    pub fn new(heap: Global, wish: &Wish, suite: Suite<D, L>) -> anyhow::Result<Cluster<D, L>> {
        let mut ways = wish.ways.iter().copied();
        let mut seats = Vec::new(heap);
        for number in (0..wish.boards()).rev() {
            let place = sure(Place::new(wish.f, number))?;
            let node = Node::new(heap, place, ways.next(), suite)?;
            let tally = Tally::default();
            push(&mut seats, Seat { node, tally })?;
        }
        seats.reverse();
        Ok(Cluster {
            heap,
            f: wish.f,
            honest: seats.len().saturating_sub(wish.ways.len()),
            suite,
            seats,
        })
    }

    // Board 0, which is honest.
    pub fn first(&self) -> anyhow::Result<&Seat<D, L>> {
        self.seats.first().context("there is no board 0")
    }

    // Gives a request to every board.
    pub fn deliver(&mut self, frame: &[u8]) -> Result<Vec<Answer>, AllocError> {
        let mut answers = Vec::new(self.heap);
        for seat in self.seats.iter_mut() {
            let answer = Answer(seat.node.deliver(frame));
            seat.tally.count(answer);
            answers.push(answer)?;
        }
        Ok(answers)
    }

    // Whether every honest board answered as board 0 did.
    pub fn agree(&self, answers: &[Answer]) -> bool {
        let Some(first) = answers.first() else {
            return true;
        };
        answers
            .iter()
            .take(self.honest)
            .all(|answer| answer == first)
    }

    // Lets a session take the replies, those of the wrong boards first.
    pub fn decide(&self, answers: &[Answer]) -> anyhow::Result<Ruling> {
        let mut session = Session::new(sure(ClusterSize::new(self.f))?);
        let mut replies = 0;
        for (board, answer) in answers.iter().enumerate().rev() {
            if let Some(reply) = answer.reply(u8::try_from(board)?) {
                if session.reply(reply).is_ok() {
                    one_more(&mut replies);
                }
            }
        }
        Ok(Ruling {
            decision: session.outcome(),
            replies,
        })
    }
}
