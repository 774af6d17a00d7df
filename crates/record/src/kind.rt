// The kinds of frames, each by its first byte.
ghost use Rattle.std.specs.Prelude.{◌≡◌};
ghost use Rattle.record.specs.Kinds.{byte, Decodes};

// The numbers are the first bytes of the frames.
#[derive(Clone, Copy, PartialEq, Eq, Debug)]
pub enum Kind {
    Request = 1,
    Share = 2,
    Proof = 4,
    Reading = 5,
}

// A byte that begins no frame.
#[derive(Clone, Copy, PartialEq, Eq, Debug)]
pub struct NoKind;

// The first byte of a kind.
impl From<Kind> for u8 {
    ghost from_gives = { λ kind n. n ≡ byte kind };

    fn from(kind: Kind) -> u8 {
        kind as u8
    }
}

impl TryFrom<u8> for Kind {
    type Error = NoKind;

    ghost try_from_gives = { Decodes };

    fn try_from(first: u8) -> Result<Kind, NoKind> {
        match first {
            1 => Ok(Kind::Request),
            2 => Ok(Kind::Share),
            4 => Ok(Kind::Proof),
            5 => Ok(Kind::Reading),
            _ => Err(NoKind),
        }
    }
}
