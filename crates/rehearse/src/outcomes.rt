// What a board answers to a request, and how answers are counted.
use crate::tools::one_more;
use decision::Decision;
use fault::Fault;
use history::Delivery;
use session::replies::Reply;

#[derive(Clone, Copy, PartialEq, Eq)]
pub struct Answer(pub Result<Delivery, Fault>);

impl Answer {
    // What was decided, where the board did not refuse.
    pub fn decision(self) -> Option<Decision> {
        self.0.ok().map(|told| told.decision)
    }

    // The reply that a session is handed; a board that refuses does not reply.
    pub fn reply(self, board: u8) -> Option<Reply> {
        let decision = self.decision()?;
        Some(Reply {
            board,
            verdict: decision.verdict(),
            version: decision.version().unwrap_or(0),
        })
    }
}

// How often a board gave each kind of answer.
#[derive(Clone, Copy, Default)]
pub struct Tally {
    pub commits: u32,
    pub aborts: u32,
    pub refusals: u32,
}

impl Tally {
    pub fn count(&mut self, answer: Answer) {
        match answer.decision() {
            Some(Decision::Commit { .. }) => one_more(&mut self.commits),
            Some(Decision::Abort) => one_more(&mut self.aborts),
            None => one_more(&mut self.refusals),
        }
    }
}
