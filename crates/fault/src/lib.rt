// What a call answers when it refuses, and the two verdicts on a request.
// A refusal is a value like any other: a cause, the layer that found it and a place.
#![tactic(auto)]

ghost use Rattle.std.specs.Prelude.{◌≡◌};
ghost use Rattle.fault.specs.Codes.{fault, letter, number, verdict_byte};

// Why a call refused; the numbers are those that answers carry.
#[derive(Clone, Copy, PartialEq, Eq, Debug)]
pub enum Cause {
    Malformed = 1,
    NotRising = 2,
    WrongTag = 3,
    Unread = 4,
    NotMember = 5,
    NoRoom = 6,
    WrongRange = 7,
    Unmatched = 8,
    Stale = 9,
    NotOpen = 10,
    BankFull = 11,
    NotCommitted = 12,
    Evicted = 13,
    NoShareDue = 14,
    Unsealed = 15,
    Settled = 16,
}

// The part of the system that found the fault.
#[derive(Clone, Copy, PartialEq, Eq, Debug)]
pub enum Layer {
    Frame,
    Proof,
    Seal,
    Board,
    Reader,
    Session,
}

// A refusal. The place is an offset in what was handed in, or a version, or 0 where there is none to name.
#[derive(Clone, Copy, PartialEq, Eq, Debug)]
pub struct Fault {
    pub cause: Cause,
    pub layer: Layer,
    pub place: u32,
}

// What a board decides of a request; the numbers are those that answers carry.
#[derive(Clone, Copy, PartialEq, Eq, Debug)]
pub enum Verdict {
    Abort = 0,
    Commit = 1,
}

impl Cause {
    // The refusal for this cause, found by a layer at a place.
    pub fn at(self, layer: Layer, place: u32) -> Fault
        ensures { result ≡ fault self layer place }
    {
        Fault {
            cause: self,
            layer,
            place,
        }
    }
}

// The number of a cause.
impl From<Cause> for u8 {
    ghost from_gives = { λ cause n. n ≡ number cause };

    fn from(cause: Cause) -> u8 {
        cause as u8
    }
}

// The letter of a layer, in ASCII.
impl From<Layer> for u8 {
    ghost from_gives = { λ layer n. n ≡ letter layer };

    fn from(layer: Layer) -> u8 {
        match layer {
            Layer::Frame => b'F',
            Layer::Proof => b'P',
            Layer::Seal => b'S',
            Layer::Board => b'B',
            Layer::Reader => b'R',
            Layer::Session => b'C',
        }
    }
}

// The byte of a verdict.
impl From<Verdict> for u8 {
    ghost from_gives = { λ verdict n. n ≡ verdict_byte verdict };

    fn from(verdict: Verdict) -> u8 {
        verdict as u8
    }
}
