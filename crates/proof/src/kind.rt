// The kinds of records in a proof, and the rules on their numbers.
ghost use Rattle.std.specs.Prelude.{◌≡◌, ◌^◌, ◌<◌, ◌≤◌, Some, None};
ghost use Rattle.fault.specs.declared.Cause.TheVariants.{Malformed};
ghost use Rattle.fault.specs.declared.Layer.TheVariants.{Proof};
ghost use Rattle.fault.specs.Codes.{fault};
ghost use Rattle.record.specs.Chains.{tested, unless};
ghost use Rattle.record.specs.Formats.{up_to};
ghost use Rattle.proof.specs.Rules.{numbered};

use fault::{Cause, Fault, Layer};
use record::is_above;

// What a kind of record is judged by: the largest number in range, how many bytes stand behind the number, and the f of the boards that it has to be one of.
#[derive(Clone, Copy)]
pub(crate) struct Kind {
    pub(crate) top: u8,
    pub(crate) size: usize,
    pub(crate) boards: Option<u8>,
}

// Items with their digests.
pub(crate) fn items() -> Kind
    ensures { (result.top ≡ 63) × (result.size ≡ 32) × (result.boards ≡ None) }
{
    Kind {
        top: 63,
        size: 32,
        boards: None,
    }
}

// Pairs of signer and tag.
pub(crate) fn pairs(f: u8) -> Kind
    ensures { (result.top ≡ 255) × (result.size ≡ 16) × (result.boards ≡ Some f) }
{
    Kind {
        top: 255,
        size: 16,
        boards: Some(f),
    }
}

// A fault of rule 1.
pub(crate) fn malformed(place: usize) -> Fault
    requires { place < 2 ^ 32 }
    ensures { result ≡ fault Malformed Proof place }
{
    Cause::Malformed.at(Layer::Proof, place as u32)
}

// The number of a record by rules 1, 2 and 5, in this order.
pub(crate) fn check_number(
    kind: Kind,
    last: Option<u32>,
    number: u8,
    place: usize,
) -> Result<(), Fault>
    requires { place < 2 ^ 32 }
    ensures { result ≡ unless (up_to kind.top number) (fault Malformed Proof place) (tested (numbered kind.boards last number place)) }
{
    if number > kind.top {
        return Err(malformed(place));
    }
    if !is_above(last, number as u32) {
        return Err(Cause::NotRising.at(Layer::Proof, place as u32));
    }
    if let Some(f) = kind.boards {
        if number as u32 >= 3 * f as u32 + 1 {
            return Err(Cause::NotMember.at(Layer::Proof, place as u32));
        }
    }
    Ok(())
}
