// The session itself.
ghost use Rattle.std.specs.Prelude.{◌≡◌, ℕ, List, []};
ghost use Rattle.session.specs.Answers.{Honest, Means, MeansWell, Unchanged, accepted, answer};
ghost use Rattle.session.specs.Replies.{malformed as isMalformed};
ghost use Rattle.session.specs.Standing.{Represents, Takes};
ghost use Rattle.session.specs.declared.replies.Reply.{Reply as ReplyOf};

use crate::heard::Heard;
use crate::replies::Reply;
use cluster_size::ClusterSize;
use decision::Decision;
use fault::{Cause, Fault, Layer, Verdict};

#[derive(Clone, Copy)]
enum State {
    Waiting(Heard),
    Decided(Decision),
}

#[derive(Clone, Copy)]
pub struct Session {
    size: ClusterSize,
    state: State,
}

impl Session {
    pub fn new(size: ClusterSize) -> Session
        ensures { Represents result size.f [] }
    {
        Session {
            size,
            state: State::Waiting(Heard::new()),
        }
    }

    // What the session has decided; None while it waits.
    pub fn outcome(&self) -> Option<Decision>
        ensures { (f : ℕ) (rs : List ReplyOf) → Represents self.now f rs → Means f rs result × Honest f rs result }
    {
        match self.state {
            State::Waiting(_) => None,
            State::Decided(decision) => Some(decision),
        }
    }

    // Takes a reply where the session waits and the board has not replied, and answers what it says and how many boards agree with it.
    fn take(&mut self, reply: Reply) -> Option<(Decision, usize)>
        ensures size { self.new.size ≡ self.old.size }
        ensures state { Takes self.old.state self.new.state reply result }
    {
        let (heard, decision) = match (&mut self.state, reply.verdict) {
            (State::Decided(_), _) => return None,
            (State::Waiting(heard), Verdict::Commit) => (
                heard,
                Decision::Commit {
                    version: reply.version,
                },
            ),
            (State::Waiting(heard), Verdict::Abort) => (heard, Decision::Abort),
        };
        Some((decision, heard.take(reply.board, decision)?))
    }

    // Takes a reply and answers what the session has then decided.
    pub fn reply(&mut self, reply: Reply) -> Result<Option<Decision>, Fault>
        ensures answers { (f : ℕ) (rs : List ReplyOf) → Represents self.old f rs → (result ≡ answer f rs reply) × Represents self.new f (accepted rs reply result) }
        ensures means { (f : ℕ) (rs : List ReplyOf) → Represents self.old f rs → MeansWell f (accepted rs reply result) result }
        ensures kept { Unchanged self.old self.new result }
    {
        if malformed(reply) {
            return Err(Cause::Malformed.at(Layer::Session, 0));
        }
        if reply.board >= self.size.boards() {
            return Err(Cause::NotMember.at(Layer::Session, 0));
        }
        let Some((decision, count)) = self.take(reply) else {
            return Err(Cause::Settled.at(Layer::Session, 0));
        };
        if count <= usize::from(self.size.faults()) {
            return Ok(None);
        }
        self.state = State::Decided(decision);
        Ok(Some(decision))
    }
}

fn malformed(reply: Reply) -> bool
    ensures { result ≡ isMalformed reply.verdict reply.version }
{
    match reply.verdict {
        Verdict::Commit => reply.version == 0,
        Verdict::Abort => reply.version != 0,
    }
}
