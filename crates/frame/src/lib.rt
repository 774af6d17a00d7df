// Any frame, by its kind: the decoded frame borrows its lists of records and its tags from the input.
#![tactic(auto)]

ghost use Rattle.frame.specs.Frames.{FrameRead, PartsFound};

use fault::Fault;
use proof::read::{Proof, read_proof};
use reading::{Reading, read_reading};
use record::kind::Kind;
use record::malformed;
use request::{Request, read_request};
use share::{Share, read_share};

#[derive(Clone, Copy)]
pub enum Frame<'a> {
    Request(Request<'a>),
    Share(Share<'a>),
    Proof(Proof<'a>),
    Reading(Reading<'a>),
}

// Reads a frame in place, among 3 f + 1 boards; a first byte that is no kind is refused there.
pub fn read_frame<'a>(bytes: &'a [u8], f: u8) -> Result<Frame<'a>, Fault>
    ensures read { FrameRead f bytes.now result }
    ensures parts { PartsFound bytes.now result }
{
    let Some(first) = bytes.first() else {
        return Err(malformed(0));
    };
    let Ok(kind) = Kind::try_from(*first) else {
        return Err(malformed(0));
    };
    match kind {
        Kind::Request => Ok(Frame::Request(read_request(bytes)?)),
        Kind::Share => Ok(Frame::Share(read_share(bytes, f)?)),
        Kind::Proof => Ok(Frame::Proof(read_proof(bytes, f)?)),
        Kind::Reading => Ok(Frame::Reading(read_reading(bytes)?)),
    }
}
