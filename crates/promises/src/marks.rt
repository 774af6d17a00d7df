// Two boards: their marks, and their answers to one frame.
ghost use Rattle.digest.specs.Meaning.{bytes_by};
ghost use Rattle.promises.specs.Marks.{Agreed, EqualMarks, OneAnswer, OwnAnswer};

use crate::calls::{Answer, Call, Start};
use crate::runs::run_new;
use board::state::Board;
use digest::Digest;
use fault::Fault;
use history::Delivery;
use seal::Seal;
use store::Store;

// Whether two boards have the same mark.
pub fn same_marks<S: Store, T: Store, D: Digest, K: Seal, L: Seal>(
    one: &Board<S, D, K>,
    other: &Board<T, D, L>,
) -> bool
    ensures { EqualMarks S.Store.holds T.Store.holds (bytes_by D.Digest.of) K.Seal.tag L.Seal.tag one.now other.now result }
{
    one.mark() == other.mark()
}

// Delivers one frame to two boards.
pub fn deliver_both<S: Store, T: Store, D: Digest, K: Seal, L: Seal>(
    one: &mut Board<S, D, K>,
    other: &mut Board<T, D, L>,
    frame: &[u8],
) -> (Result<Delivery, Fault>, Result<Delivery, Fault>)
    ensures alike { OneAnswer S.Store.holds T.Store.holds (bytes_by D.Digest.of) K.Seal.tag L.Seal.tag one.old other.old result.0 result.1 }
    ensures first { OwnAnswer S.Store.holds (bytes_by D.Digest.of) K.Seal.tag frame.now one.old one.new result.0 }
    ensures second { OwnAnswer T.Store.holds (bytes_by D.Digest.of) L.Seal.tag frame.now other.old other.new result.1 }
{
    let mine = one.deliver(frame);
    let theirs = other.deliver(frame);
    (mine, theirs)
}

// Makes runs on two new boards, and says whether the boards have the same mark then.
pub fn runs_agree<S: Store, T: Store, D: Digest, K: Seal, L: Seal>(
    one: Start<S::Memory, D, K>,
    calls: &[Call<'_>],
    answers: &mut [Answer],
    room: &mut [u8],
    other: Start<T::Memory, D, L>,
    others: &[Call<'_>],
    replies: &mut [Answer],
    space: &mut [u8],
) -> (Board<S, D, K>, Board<T, D, L>, bool)
    ensures { Agreed S.Store.holds T.Store.holds (bytes_by D.Digest.of) K.Seal.tag L.Seal.tag (K.Seal.tag one.seal) (L.Seal.tag other.seal) one.place.size.f other.place.size.f one.place.number other.place.number calls.now others.now answers.old answers.new replies.old replies.new room.old room.new space.old space.new result.0 result.1 result.2 }
{
    let (mine, _) = run_new(one, calls, answers, room);
    let (theirs, _) = run_new(other, others, replies, space);
    let same = same_marks(&mine, &theirs);
    (mine, theirs, same)
}
