// A proof that is to be written: judged as a whole, and put into a buffer.
ghost use Rattle.std.specs.Prelude.{◌≡◌, ◌+◌, ◌-◌, ◌≤◌, ◌&&◌, ◌∷◌, ◌++◌, length, ◌==◌, nat_le};
ghost use Rattle.octets.specs.Numbers.{be, limit};
ghost use Rattle.octets.specs.Parts.{over};
ghost use Rattle.proof.specs.Bodies.{proof_bytes, range};
ghost use Rattle.proof.specs.Drafts.{draft_body};
ghost use Rattle.proof.specs.Writing.{weigh_proof};

use crate::kind::malformed;
use crate::range::is_range;
use crate::weigh::weigh_entries;
use entry::parts::SealedEntry;
use fault::Fault;
use octets::{LIMIT, put_number};
use record::kind::Kind;
use record::piece::put_all;

// The range, and the entries of its versions.
#[derive(Clone, Copy)]
pub(crate) struct Draft<'a> {
    pub(crate) low: u32,
    pub(crate) high: u32,
    pub(crate) entries: &'a [SealedEntry],
}

// The fields before the entries.
fn put_head(low: u32, high: u32, out: &mut [u8])
    requires fits { (low ≤ limit 2) × (high ≤ limit 2) }
    requires room { 5 ≤ length out.old }
    ensures { out.new ≡ over (4 ∷ (be 2 low ++ be 2 high)) out.old }
{
    out[0] = Kind::Proof as u8;
    put_number(low, &mut out[1..]);
    put_number(high, &mut out[3..]);
}

impl<'a> Draft<'a> {
    // Whether high fits its width, makes a range with low and gives the number of entries.
    fn covers(self) -> bool
        requires { self.low ≤ limit 2 }
        ensures { result ≡ (nat_le self.entry.high (limit 2) && (range self.entry.low self.entry.high && length self.entry.entries.now == self.entry.high + 1 - self.entry.low)) }
    {
        let count = self.entries.len();
        self.high <= LIMIT
            && is_range(self.low, self.high)
            && count == (self.high + 1 - self.low) as usize
    }

    // Judges a whole proof, and answers where its frame ends.
    pub(crate) fn weigh(self, f: u8) -> Result<usize, Fault>
        ensures { result ≡ weigh_proof 2 f (draft_body self.entry) }
    {
        if self.low < 1 || self.low > LIMIT {
            return Err(malformed(1));
        }
        if !self.covers() {
            return Err(malformed(3));
        }
        weigh_entries(self.entries, self.low, f)
    }

    // Puts a proof to the front of a buffer, each entry into the bytes behind the one before.
    pub(crate) fn put(self, out: &mut [u8])
        requires fits { (self.low ≤ limit 2) × (self.high ≤ limit 2) }
        requires room { length (proof_bytes 2 (draft_body self)) ≤ length out.old }
        ensures { out.new ≡ over (proof_bytes 2 (draft_body self.entry)) out.old }
    {
        put_head(self.low, self.high, out);
        put_all(self.entries, &mut out[5..]);
    }
}
