// What a board has been asked and has answered since it was made, and what follows from that alone:
// its commits, the state they left, the entries, the chain, the numbers open and the shares.
#![tactic(auto)]

use decision::Decision;

// The answer to a delivery: what was decided, and the number opened, if one was left.
#[derive(Clone, Copy, PartialEq, Eq, Debug)]
pub struct Delivery {
    pub decision: Decision,
    pub opened: Option<u32>,
}
