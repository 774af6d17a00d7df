// A bank that is fed bytes and answers each line as it ends.
ghost use Rattle.std.specs.Prelude.{◌≡◌};

use bank::state::Bank;
use digest::Digest;
use store::Store;

pub mod answers;

#[derive(Drop)]
pub struct Answerer<S: Store, D: Digest> {
    bank: Bank<S, D>,
}

impl<S: Store, D: Digest> Answerer<S, D> {
    pub fn new(bank: Bank<S, D>) -> Answerer<S, D>
        ensures { result.bank ≡ bank }
    {
        Answerer { bank }
    }
}
