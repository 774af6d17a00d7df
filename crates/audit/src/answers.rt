// What an audit answers.
ghost use Rattle.std.specs.Prelude.{◌≡◌, if◌then◌else◌};
ghost use Rattle.audit.specs.declared.answers.Judgement.TheVariants.{Right, Wrong};

// What a report was: right where its mark is the replay's.
#[derive(Clone, Copy, PartialEq, Eq, Debug)]
pub enum Judgement {
    Right,
    Wrong,
}

// Where a board departed, by the numbers of two of its reports: the last right one before its first wrong one, if any, and that one.
#[derive(Clone, Copy, PartialEq, Eq, Debug)]
pub struct Departure {
    pub right: Option<u32>,
    pub wrong: u32,
}

impl From<bool> for Judgement {
    ghost from_gives = { λ right judgement. judgement ≡ (if right then Right else Wrong) };

    fn from(right: bool) -> Judgement {
        if right {
            Judgement::Right
        } else {
            Judgement::Wrong
        }
    }
}
