// Seals: who holds a signer's key can make a tag of a string, and can check that a tag is the signer's.
// One interface with two implementations, by SipHash-2-4 and by HMAC-SHA-256.
#![tactic(auto)]

ghost use Rattle.std.specs.Prelude.{◌≡◌, ℕ, ◌<◌, ◌≤◌, min, List, ◌++◌, length, Decides, MatchResult};
ghost use Rattle.fault.specs.Codes.{fault};
ghost use Rattle.fault.specs.declared.Cause.TheVariants.{Malformed};
ghost use Rattle.fault.specs.declared.Layer.TheVariants.{Frame};
ghost use Rattle.seal.specs.Seals.{Checked, Made, Verified, client_signer, passes};

use fault::{Cause, Fault, Layer};

pub mod keyed;
pub mod mac;
pub mod sip;

// The highest signer: boards are 0 to 15, clients 16 to 31.
const LAST_SIGNER: u8 = 31;

// The longest string that is sealed, in bytes, and the refusal of a longer one.
pub(crate) const LONGEST: usize = 65535;

pub(crate) const TOO_LONG: Fault = Fault {
    cause: Cause::Malformed,
    layer: Layer::Frame,
    place: 65535,
};

// A seal means one function from a signer and a string to a tag. A string comes in two parts, `head` and then `rest`.
pub trait Seal {
    ghost tag: { Self → ℕ → List ℕ → List ℕ };

    // Makes the tag.
    fn make(&self, signer: u8, head: &[u8], rest: &[u8]) -> Result<[u8; 16], Fault>
        ensures { Made (tag self.now) signer (head.now ++ rest.now) result };

    // Says whether a tag passes.
    fn check(&self, signer: u8, head: &[u8], rest: &[u8], given: &[u8]) -> Result<bool, Fault>
        ensures { Checked (passes (tag self.now)) signer (head.now ++ rest.now) given.now result }
    {
        let right = self.make(signer, head, rest)?;
        Ok(equal(&right, given))
    }

    // Refuses a tag that does not pass; `place` says where the tag stands.
    fn verify(
        &self,
        signer: u8,
        head: &[u8],
        rest: &[u8],
        given: &[u8],
        place: u32,
    ) -> Result<(), Fault>
        ensures { Verified (passes (tag self.now)) signer (head.now ++ rest.now) given.now place result }
    {
        if self.check(signer, head, rest, given)? {
            Ok(())
        } else {
            Err(Cause::WrongTag.at(Layer::Seal, place))
        }
    }

    ghost sixteen: { (s : Self) (i : ℕ) (m : List ℕ) → length (tag s i m) ≡ 16 };
}

// The signer that a client is.
pub fn client_signer(client: u8) -> u8
    ensures { result ≡ min (client_signer client) 255 }
{
    16u8.saturating_add(client)
}

// The length of a string in two parts.
pub(crate) fn whole_length(head: &[u8], rest: &[u8]) -> usize
    ensures { result ≡ length (head.now ++ rest.now) }
{
    head.len() + rest.len()
}

// A signer's place among the keys.
pub(crate) fn key_place(signer: u8) -> Result<usize, Fault>
    ensures { MatchResult result (λ i. (signer ≤ 31) × (i ≡ signer)) (λ e. (31 < signer) × (e ≡ fault Malformed Frame 0)) }
{
    if signer > LAST_SIGNER {
        return Err(Cause::Malformed.at(Layer::Frame, 0));
    }
    Ok(signer as usize)
}

// Whether a given tag is the right one. Every byte is compared, whatever the others were.
pub(crate) fn equal(right: &[u8; 16], given: &[u8]) -> bool
    ensures { Decides result (given.now ≡ right.now) }
{
    if given.len() != 16 {
        return false;
    }
    let mut apart = 0;
    for (a, b) in right.iter().zip(given) {
        apart |= a ^ b;
    }
    apart == 0
}
