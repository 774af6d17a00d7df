// What all frames share: records that stand one behind the other, the rules on their numbers, and pieces that are written one behind the other.
#![tactic(auto)]

ghost use Rattle.std.specs.Prelude.{◌≡◌, ℕ, ◌+◌, ◌*◌, ◌<◌, ◌≤◌, min, List, map, length, IfOk, None, Ok, Result};
ghost use Rattle.fault.specs.Codes.{fault};
ghost use Rattle.fault.specs.declared.Cause.TheVariants.{Malformed};
ghost use Rattle.fault.specs.declared.Fault.{Fault};
ghost use Rattle.fault.specs.declared.Layer.TheVariants.{Frame};
ghost use Rattle.record.specs.Chains.{tested};
ghost use Rattle.record.specs.Orders.{CoveredSays, RisingSays};
ghost use Rattle.record.specs.Rules.{above, among, covered, rising};
ghost use Rattle.record.specs.Runs.{marked, run, spotted};

pub mod kind;
pub mod piece;
pub mod records;

use fault::{Cause, Fault, Layer};
use inline_vec::InlineVec;

// A field of a frame that is out of range or not wholly there, or a byte too many.
pub fn malformed(place: u32) -> Fault
    ensures { result ≡ fault Malformed Frame place }
{
    Cause::Malformed.at(Layer::Frame, place)
}

// A plain record that carries a number, and where it begins in its frame.
pub trait Numbered: Copy {
    ghost number: { Self → ℕ };

    ghost place: { Self → ℕ };

    fn key(&self) -> u32
        ensures { result ≡ number self.now };

    fn offset(&self) -> u32
        ensures { result ≡ place self.now };
}

// A kind of record that stands in a frame, one behind the other.
pub trait Record: Numbered {
    // Where a record ends.
    ghost ends: { Self → ℕ };

    // The record that stands in a frame at a place.
    ghost stands: { List ℕ → ℕ → Result Self Fault };

    fn end(&self) -> usize
        ensures { result ≡ ends self.now };

    fn read_at(frame: &[u8], at: usize) -> Result<Self, Fault>
        requires { at < 16777216 }
        ensures { result ≡ stands frame.now at };

    // No record is longer than 8192 bytes.
    ghost narrow: { (bs : List ℕ) (at : ℕ) (r : Self) → stands bs at ≡ Ok r → (at ≤ ends r) × (ends r ≤ at + 8192) };
}

// Marks records that stand one behind the other, at most as many as fit, and answers where they end. The places that hold no mark hold a value that no one reads.
pub fn read_all<R: Record, const N: usize>(
    frame: &[u8],
    start: usize,
    count: usize,
    unread: R,
) -> Result<(InlineVec<R, N>, usize), Fault>
    requires { start + 8192 * count < 16777216 }
    ensures near { IfOk result (λ p. (start ≤ p.1) × (p.1 ≤ start + 8192 * count)) }
    ensures all { marked result ≡ run R.Record.stands R.Record.ends frame.now (min count N) start }
    ensures whole { count ≤ N → marked result ≡ run R.Record.stands R.Record.ends frame.now count start }
{
    let most = count.min(N);
    let mut marks = InlineVec::new(unread);
    let mut at = start;
    for _ in 0..most {
        let mark = R::read_at(frame, at)?;
        at = mark.end();
        let _ = marks.push(mark);
    }
    Ok((marks, at))
}

// Whether a number is above the last one, if there was one.
pub fn is_above(last: Option<u32>, key: u32) -> bool
    ensures { result ≡ above last key }
{
    last.is_none_or(|low| low < key)
}

// Refuses the first record whose number is not above that of the one before.
pub fn check_rise<R: Numbered>(layer: Layer, records: &[R]) -> Result<(), Fault>
    ensures answer { result ≡ tested (rising layer None (spotted R.Numbered.number R.Numbered.place records.now)) }
    ensures says { RisingSays layer (spotted R.Numbered.number R.Numbered.place records.now) result }
{
    let mut last = None;
    for r in records {
        if !is_above(last, r.key()) {
            return Err(Cause::NotRising.at(layer, r.offset()));
        }
        last = Some(r.key());
    }
    Ok(())
}

// Whether a record has the number.
pub fn has_key<R: Numbered>(records: &[R], key: u32) -> bool
    ensures { result ≡ among key (map R.Numbered.number records.now) }
{
    records.iter().map(|r| r.key()).any(|k| k == key)
}

// Refuses the first record of `asked` whose number none of `known` has.
pub fn check_covered<R: Numbered, W: Numbered>(
    layer: Layer,
    known: &[R],
    asked: &[W],
) -> Result<(), Fault>
    ensures answer { result ≡ tested (covered layer (map R.Numbered.number known.now) (spotted W.Numbered.number W.Numbered.place asked.now)) }
    ensures says { CoveredSays layer (map R.Numbered.number known.now) (spotted W.Numbered.number W.Numbered.place asked.now) result }
{
    for w in asked {
        if !has_key(known, w.key()) {
            return Err(Cause::Unread.at(layer, w.offset()));
        }
    }
    Ok(())
}
