// Whole sequences of replies to a new session.
ghost use Rattle.session.specs.Runs.{Ran};

use crate::replies::Reply;
use crate::state::Session;
use cluster_size::ClusterSize;
use decision::Decision;
use fault::Fault;

// Plays replies to a new session in their order, as far as there is room for the answers, and answers the session and how many were played.
pub fn run(
    size: ClusterSize,
    replies: &[Reply],
    answers: &mut [Result<Option<Decision>, Fault>],
) -> (Session, usize)
    ensures { Ran size.f replies.now answers.old answers.new result.0 result.1 }
{
    let mut session = Session::new(size);
    let count = replies.len().min(answers.len());
    // By index: over a zip with `answers.iter_mut()` no proof knows what was written.
    for (i, reply) in replies[..count].iter().enumerate() {
        answers[i] = session.reply(*reply);
    }
    (session, count)
}
