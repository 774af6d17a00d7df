// How the rehearsal tells what happened.
use crate::cluster::Ruling;
use crate::outcomes::Answer;
use crate::play::{Play, Posted};
use crate::shares::Passed;
use crate::station::{Told, Unread};
use decision::Decision;
use digest::Digest;
use fault::Fault;
use seal::Seal;
use std::fmt;

// A refusal in words.
#[derive(Clone, Copy)]
pub struct Why(pub Fault);

impl fmt::Display for Why {
    fn fmt<W: fmt::Write>(&self, f: &mut fmt::Formatter<W>) -> fmt::Result {
        let cause = self.0.cause;
        let layer = char::from(u8::from(self.0.layer));
        let place = self.0.place;
        write!(f, "{cause:?}, layer {layer}, place {place}")
    }
}

// A decision in words.
#[derive(Clone, Copy)]
struct InWords(Decision);

impl fmt::Display for InWords {
    fn fmt<W: fmt::Write>(&self, f: &mut fmt::Formatter<W>) -> fmt::Result {
        match self.0 {
            Decision::Commit { version } => write!(f, "commit {version}"),
            Decision::Abort => write!(f, "abort"),
        }
    }
}

impl fmt::Display for Answer {
    fn fmt<W: fmt::Write>(&self, f: &mut fmt::Formatter<W>) -> fmt::Result {
        match self.0 {
            Ok(judged) => InWords(judged.decision).fmt(f),
            Err(fault) => {
                let why = Why(fault);
                write!(f, "refused: {why}")
            }
        }
    }
}

impl fmt::Display for Unread {
    fn fmt<W: fmt::Write>(&self, f: &mut fmt::Formatter<W>) -> fmt::Result {
        match *self {
            Unread::Refused(fault) => {
                let why = Why(fault);
                write!(f, "refused: {why}")
            }
            Unread::NoProof(fault) => {
                let cause = fault.cause;
                write!(f, "no proof: {cause:?}")
            }
            Unread::NoItems(fault) => {
                let cause = fault.cause;
                write!(f, "no items: {cause:?}")
            }
        }
    }
}

impl fmt::Display for Told {
    fn fmt<W: fmt::Write>(&self, f: &mut fmt::Formatter<W>) -> fmt::Result {
        match self.0 {
            Ok(m) => write!(f, "accepted, state after {m} commits"),
            Err(unread) => unread.fmt(f),
        }
    }
}

impl fmt::Display for Ruling {
    fn fmt<W: fmt::Write>(&self, f: &mut fmt::Formatter<W>) -> fmt::Result {
        let replies = self.replies;
        match self.decision {
            Some(decision) => {
                let decision = InWords(decision);
                write!(f, "{decision}, decided by {replies} replies")
            }
            None => write!(f, "waiting, {replies} replies"),
        }
    }
}

impl fmt::Display for Passed {
    fn fmt<W: fmt::Write>(&self, f: &mut fmt::Formatter<W>) -> fmt::Result {
        let Passed {
            handed_out,
            withheld,
            taken,
            not_due,
            refused,
        } = *self;
        writeln!(f, "   handed out {handed_out}, withheld {withheld}")?;
        write!(
            f,
            "   taken in {taken}, no longer due {not_due}, refused {refused}"
        )
    }
}

impl<D: Digest + Copy, L: Seal + Copy> Play<'_, D, L> {
    // What the boards answered to a request, the honest ones together, and what its session decided.
    pub fn say_posted(&self, posted: &Posted) -> anyhow::Result<()> {
        let last = self.cluster.honest.saturating_sub(1);
        for (board, answer) in posted.answers.iter().enumerate().skip(last) {
            if board == last {
                println!(self.rt; "   boards 0 to {last}: {answer}")?;
            } else {
                println!(self.rt; "   board {board}: {answer}")?;
            }
        }
        let ruling = posted.ruling;
        println!(self.rt; "   session: {ruling}")?;
        Ok(())
    }

    // The version that each board tells of an item.
    pub fn say_versions(&self, item: u8) -> anyhow::Result<()> {
        print!(self.rt; "   item {item} then, board by board:")?;
        for seat in self.cluster.seats.iter() {
            match seat.node.item(item) {
                Ok(told) => {
                    let version = told.version;
                    print!(self.rt; " version {version};")?;
                }
                Err(_) => print!(self.rt; " refused;")?,
            }
        }
        println!(self.rt; "")?;
        Ok(())
    }
}
