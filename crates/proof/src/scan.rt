// The reader's scan over a frame, from the front. The place goes through arguments and answers, as in the rules, so no cursor holds it.
ghost use Rattle.std.specs.Prelude.{◌≡◌, ◌+◌, ◌-◌, ◌*◌, ◌^◌, ◌<◌, ◌≤◌, length, IfOk, None};
ghost use Rattle.proof.specs.Ends.{count_of, end_of, records_to};
ghost use Rattle.proof.specs.Rules.{entries_from, sealed_from};

use crate::kind::{Kind, check_number, items, malformed, pairs};
use fault::Fault;
use octets::number_at;

// Judges the records that stand one behind the other, and answers where they end.
pub(crate) fn read_records(
    bytes: &[u8],
    start: usize,
    count: usize,
    kind: Kind,
) -> Result<usize, Fault>
    requires { (start ≤ length bytes.now) × ((start + 33 * count < 2 ^ 31) × (kind.size ≤ 32)) }
    ensures near { IfOk result (λ e. (e ≤ start + 33 * count) × (e ≤ length bytes.now)) }
    ensures answer { result ≡ end_of (records_to kind.top kind.size kind.boards count None) bytes.now start }
{
    let n = bytes.len();
    let mut at = start;
    let mut last = None;
    for _ in 0..count {
        if n <= at {
            return Err(malformed(n));
        }
        let number = bytes[at];
        check_number(kind, last, number, at)?;
        if n < at + 1 + kind.size {
            return Err(malformed(n));
        }
        last = Some(number as u32);
        at = at + 1 + kind.size;
    }
    Ok(at)
}

// Judges the version that is due and the count of writes, and answers the count.
fn read_count(bytes: &[u8], at: usize, due: u32) -> Result<u8, Fault>
    requires { (at ≤ length bytes.now) × (at < 2 ^ 30) }
    ensures within { IfOk result (λ n. (n ≤ 8) × (at + 3 ≤ length bytes.now)) }
    ensures answer { result ≡ count_of 2 due bytes.now at }
{
    let n = bytes.len();
    if n < at + 2 {
        return Err(malformed(n));
    }
    if number_at(bytes, at) != due {
        return Err(malformed(at));
    }
    if n < at + 3 {
        return Err(malformed(n));
    }
    let count = bytes[at + 2];
    if count < 1 || count > 8 {
        return Err(malformed(at + 2));
    }
    Ok(count)
}

// Judges the sealed entry of the version that is due, and answers where it ends.
pub(crate) fn read_sealed(bytes: &[u8], at: usize, due: u32, f: u8) -> Result<usize, Fault>
    requires { (at ≤ length bytes.now) × (at < 2 ^ 30) }
    ensures near { IfOk result (λ e. (e ≤ at + 8715) × (e ≤ length bytes.now)) }
    ensures answer { result ≡ end_of (sealed_from 2 f due) bytes.now at }
{
    let count = read_count(bytes, at, due)?;
    let pairs_at = read_records(bytes, at + 3, count as usize, items())?;
    read_records(bytes, pairs_at, f as usize + 1, pairs(f))
}

// Judges entries of one version after the other, and answers where they end.
pub(crate) fn read_entries(bytes: &[u8], low: u32, count: u32, f: u8) -> Result<usize, Fault>
    requires { (5 ≤ length bytes.now) × ((low < 65536) × (count ≤ 32)) }
    ensures near { IfOk result (λ e. e ≤ 278885) }
    ensures answer { result ≡ end_of (entries_from 2 f low count) bytes.now 5 }
{
    let mut at = 5;
    for due in low..low + count {
        at = read_sealed(bytes, at, due, f)?;
    }
    Ok(at)
}
