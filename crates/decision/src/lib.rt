// What was decided of a request: a verdict with what belongs to it.
#![tactic(auto)]

ghost use Rattle.std.specs.Prelude.{◌≡◌};
ghost use Rattle.decision.specs.Decisions.{verdict_of, version_of};

use fault::Verdict;

// A commit has a version, an abort has none.
#[derive(Clone, Copy, PartialEq, Eq, Debug)]
pub enum Decision {
    Abort,
    Commit { version: u32 },
}

impl Decision {
    pub fn verdict(self) -> Verdict
        ensures { result ≡ verdict_of self }
    {
        match self {
            Decision::Abort => Verdict::Abort,
            Decision::Commit { .. } => Verdict::Commit,
        }
    }

    // The version of a commit.
    pub fn version(self) -> Option<u32>
        ensures { result ≡ version_of self }
    {
        match self {
            Decision::Abort => None,
            Decision::Commit { version } => Some(version),
        }
    }
}
