// The ways in which a board of the rehearsal can be wrong, each by its name.
use anyhow::Context;
use std::fmt;
use std::str::FromStr;

#[derive(Clone, Copy)]
pub enum Way {
    InstallsEarly,
    AlwaysAborts,
    RefusesAll,
    EvictsEarly,
    NeverSealed,
    InstallsNothing,
    OwnCopy,
    InventsShares,
    CountsTwice,
    WindowOnly,
    AnyEntry,
    Forges,
}

pub const WAYS: [Way; 12] = [
    Way::InstallsEarly,
    Way::AlwaysAborts,
    Way::RefusesAll,
    Way::EvictsEarly,
    Way::NeverSealed,
    Way::InstallsNothing,
    Way::OwnCopy,
    Way::InventsShares,
    Way::CountsTwice,
    Way::WindowOnly,
    Way::AnyEntry,
    Way::Forges,
];

impl Way {
    fn name(self) -> &'static str {
        match self {
            Way::InstallsEarly => "installs-early",
            Way::AlwaysAborts => "always-aborts",
            Way::RefusesAll => "refuses-all",
            Way::EvictsEarly => "evicts-early",
            Way::NeverSealed => "never-sealed",
            Way::InstallsNothing => "installs-nothing",
            Way::OwnCopy => "own-copy",
            Way::InventsShares => "invents-shares",
            Way::CountsTwice => "counts-twice",
            Way::WindowOnly => "window-only",
            Way::AnyEntry => "any-entry",
            Way::Forges => "forges",
        }
    }

    // What the board does, in a sentence that begins with the board.
    pub fn does(self) -> &'static str {
        match self {
            Way::InstallsEarly => "installs a write before the last read is compared",
            Way::AlwaysAborts => "aborts every request",
            Way::RefusesAll => "refuses every call",
            Way::EvictsEarly => "says that every entry is evicted",
            Way::NeverSealed => "says that its entries never have enough shares",
            Way::InstallsNothing => "answers commits, and its items stay blank",
            Way::OwnCopy => "answers each item as it was first written",
            Way::InventsShares => "counts f + 1 shares at once, and makes up their tags",
            Way::CountsTwice => "counts one signer twice",
            Way::WindowOnly => "judges by the 32 kept entries only",
            Way::AnyEntry => "lets a read pass if any commit wrote its digest",
            Way::Forges => "tells another value for item 5, and changes its proof to fit",
        }
    }
}

impl fmt::Display for Way {
    fn fmt<W: fmt::Write>(&self, f: &mut fmt::Formatter<W>) -> fmt::Result {
        f.pad(self.name())
    }
}

impl FromStr for Way {
    type Err = anyhow::Error;

    fn from_str(word: &str) -> anyhow::Result<Way> {
        WAYS.iter().copied().find(|way| way.name() == word).context(
            "a way to be wrong is one of those that `rehearse ways` lists",
        )
    }
}
