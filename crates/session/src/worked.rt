// With one board that may be faulty: two equal replies decide, and a board replies once.
ghost use Rattle.std.specs.Prelude.{◌≡◌, false, [], ◌∷◌, Some, Ok, Err};
ghost use Rattle.fault.specs.Codes.{fault};
ghost use Rattle.fault.specs.declared.Cause.TheVariants.{Settled};
ghost use Rattle.fault.specs.declared.Layer.TheVariants.{Session as ofSession};
ghost use Rattle.session.specs.Answers.{accepted, answer, reply};
ghost use Rattle.session.specs.Replies.{decision, malformed};

use crate::replies::Reply;
use crate::state::Session;
use cluster_size::ClusterSize;
use decision::Decision;
use fault::{Fault, Verdict};

// The answer to the second of two replies to a new session of four boards.
fn second(first: Reply, next: Reply) -> Result<Option<Decision>, Fault>
    ensures { result ≡ answer 1 (accepted [] first (answer 1 [] first)) next }
{
    let mut session = Session::new(ClusterSize::new(1)?);
    let _first = session.reply(first);
    session.reply(next)
}

// Equal replies of boards 0 and 3 decide.
pub fn two_agree(verdict: Verdict, version: u32) -> Result<Option<Decision>, Fault>
    ensures runs { malformed verdict version ≡ false → result ≡ Ok (Some (decision verdict version)) }
    ensures rule { malformed verdict version ≡ false → answer 1 (reply 0 verdict version ∷ []) (reply 3 verdict version) ≡ Ok (Some (decision verdict version)) }
{
    let first = Reply {
        board: 0,
        verdict,
        version,
    };
    second(first, Reply { board: 3, ..first })
}

// A second reply of board 0 is refused, whatever the two say.
pub fn replies_twice(
    verdict: Verdict,
    version: u32,
    again: Verdict,
    other: u32,
) -> Result<Option<Decision>, Fault>
    ensures runs { malformed verdict version ≡ false → malformed again other ≡ false → result ≡ Err (fault Settled ofSession 0) }
    ensures rule { malformed again other ≡ false → answer 1 (reply 0 verdict version ∷ []) (reply 0 again other) ≡ Err (fault Settled ofSession 0) }
{
    second(
        Reply {
            board: 0,
            verdict,
            version,
        },
        Reply {
            board: 0,
            verdict: again,
            version: other,
        },
    )
}
