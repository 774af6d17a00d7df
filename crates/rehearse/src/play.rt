// A cluster at work: clients send requests, sessions decide, and what was decided is noted.
use crate::cluster::{Cluster, Ruling};
use crate::node::Suite;
use crate::outcomes::Answer;
use crate::tools::{front, one_more, sure};
use crate::truth::Truth;
use crate::words::Wish;
use decision::Decision;
use digest::Digest;
use request::item::{ReadItem, WriteItem};
use seal::Seal;
use sealed_request::{Unsealed, seal_request};
use std::alloc::AllocError;

// The longest request.
pub const REQUEST: usize = 854;

// How the sessions and the readings came out.
#[derive(Clone, Copy, Default)]
pub struct Score {
    pub decided: u32,
    pub waiting: u32,
    // Sessions that decided otherwise than the honest boards, and deliveries that these answered differently.
    pub misled: u32,
    pub apart: u32,
    // False readings that were accepted.
    pub fooled: u32,
}

#[derive(Drop)]
pub struct Play<'a, D: Digest, L: Seal> {
    pub rt: &'a HostRuntime,
    pub cluster: Cluster<D, L>,
    pub truth: Truth,
    pub commits: u32,
    next: [u32; 16],
    pub score: Score,
}

// What became of a request.
#[derive(Drop)]
pub struct Posted {
    pub answers: Vec<Answer>,
    pub ruling: Ruling,
}

impl<'a, D: Digest + Copy, L: Seal + Copy> Play<'a, D, L> {
    pub fn new(
        rt: &'a HostRuntime,
        wish: &Wish,
        suite: Suite<D, L>,
    ) -> anyhow::Result<Play<'a, D, L>> {
        let heap = rt.alloc();
        Ok(Play {
            rt,
            cluster: Cluster::new(heap, wish, suite)?,
            truth: Truth::new(heap),
            commits: 0,
            next: [1; 16],
            score: Score::default(),
        })
    }

    // What a client reads of some items from board 0.
    pub fn read(&self, items: &[u8]) -> anyhow::Result<Vec<ReadItem>> {
        let board = self.cluster.first()?;
        items
            .iter()
            .map(|item| -> anyhow::Result<ReadItem> {
                let told = sure(board.node.item(*item))?;
                Ok(ReadItem::new(*item, told.version, told.digest))
            })
            .try_collect(self.cluster.heap)
    }

    // Writes a request under its client's tag.
    pub fn write(&self, plain: Unsealed<'_, '_, '_>, out: &mut [u8]) -> anyhow::Result<usize> {
        sure(seal_request(&self.cluster.suite.seal, plain, out))
    }

    // Gives a request to every board, and its client's session the replies.
    pub fn post(&mut self, frame: &[u8], writes: &[WriteItem<'_>]) -> anyhow::Result<Posted> {
        let answers = self.cluster.deliver(frame)?;
        if !self.cluster.agree(answers.as_slice()) {
            one_more(&mut self.score.apart);
        }
        let ruling = self.cluster.decide(answers.as_slice())?;
        let honest = answers.first().and_then(|answer| answer.decision());
        match ruling.decision {
            Some(decision) => self.note(decision, honest, writes)?,
            None => one_more(&mut self.score.waiting),
        }
        Ok(Posted { answers, ruling })
    }

    // Notes what a session decided, and whether the honest boards had answered it.
    fn note(
        &mut self,
        decision: Decision,
        honest: Option<Decision>,
        writes: &[WriteItem<'_>],
    ) -> Result<(), AllocError> {
        one_more(&mut self.score.decided);
        if honest != Some(decision) {
            one_more(&mut self.score.misled);
        }
        if let Decision::Commit { version } = decision {
            self.commits = version;
            for write in writes {
                self.truth.note(version, write)?;
            }
        }
        Ok(())
    }

    // The next sequence number of a client, which it then has used.
    fn take_number(&mut self, client: u8) -> u32 {
        let Some(next) = self.next.get_mut(usize::from(client)) else {
            return 0;
        };
        let number = *next;
        one_more(next);
        number
    }

    // Sends a client's request under its next number.
    pub fn send(
        &mut self,
        client: u8,
        reads: &[ReadItem],
        writes: &[WriteItem<'_>],
    ) -> anyhow::Result<Posted> {
        let sequence = self.take_number(client);
        let plain = Unsealed {
            client,
            sequence,
            reads,
            writes,
        };
        let mut frame = [0; REQUEST];
        let n = self.write(plain, &mut frame)?;
        self.post(front(&frame, n), writes)
    }
}
