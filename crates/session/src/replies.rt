// What boards say of a request.
use fault::Verdict;

// A reply: the board, its verdict, and the version of the commit, 0 for an abort.
// It comes from outside and may hold a commit of version 0 or an abort with a version, so it is no Decision: a session refuses those.
#[derive(Clone, Copy)]
pub struct Reply {
    pub board: u8,
    pub verdict: Verdict,
    pub version: u32,
}
