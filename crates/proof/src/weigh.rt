// The entries of a proof that is to be written, judged from the front as its reader does.
ghost use Rattle.std.specs.Prelude.{◌≡◌, ℕ, ◌+◌, ◌-◌, ◌*◌, ◌^◌, ◌<◌, ◌≤◌, ◌&&◌, map, length, IfOk, None, ◌==◌, nat_le};
ghost use Rattle.entry.specs.Bodies.{sealed_body};
ghost use Rattle.proof.specs.Writing.{weigh_entries, weigh_records, weigh_sealed};

use crate::kind::{Kind, check_number, items, malformed, pairs};
use entry::parts::{ItemDigest, Pair, SealedEntry};
use fault::Fault;

// A record that carries a number.
pub(crate) trait Keyed: Copy {
    ghost key: { Self → ℕ };

    fn number(&self) -> u8
        ensures { result ≡ key self.now };
}

impl Keyed for ItemDigest {
    ghost key = { λ i. i.item };

    fn number(&self) -> u8 {
        self.item
    }
}

impl Keyed for Pair {
    ghost key = { λ p. p.signer };

    fn number(&self) -> u8 {
        self.signer
    }
}

// Judges the records that are to stand one behind the other, and answers where they end.
fn weigh_records<R: Keyed>(
    records: &[R],
    due: usize,
    start: usize,
    kind: Kind,
) -> Result<usize, Fault>
    requires { (start + 33 * length records.now < 2 ^ 31) × (kind.size ≤ 32) }
    ensures near { IfOk result (λ e. e ≤ start + 33 * length records.now) }
    ensures answer { result ≡ weigh_records R.Keyed.key kind.top kind.size kind.boards due None records.now start }
{
    let mut at = start;
    let mut last = None;
    // Counts down what is still due, as the rule on the count does.
    let mut left = due;
    for r in records {
        if left == 0 {
            return Err(malformed(at));
        }
        let number = r.number();
        check_number(kind, last, number, at)?;
        last = Some(number as u32);
        left -= 1;
        at = at + 1 + kind.size;
    }
    if left > 0 {
        return Err(malformed(at));
    }
    Ok(at)
}

// Judges the sealed entry of the version that is due, and answers where it ends.
fn weigh_sealed(sealed: &SealedEntry, due: u32, f: u8, at: usize) -> Result<usize, Fault>
    requires { at < 2 ^ 30 }
    ensures near { IfOk result (λ e. e ≤ at + 465) }
    ensures answer { result ≡ weigh_sealed 2 f due (sealed_body sealed.now) at }
{
    let body = sealed.entry();
    if body.version() != due {
        return Err(malformed(at));
    }
    let count = body.len();
    if count < 1 {
        return Err(malformed(at + 2));
    }
    let pairs_at = weigh_records(body.items(), count as usize, at + 3, items())?;
    weigh_records(sealed.pairs(), f as usize + 1, pairs_at, pairs(f))
}

// Judges entries of one version after the other, and answers where they end.
pub(crate) fn weigh_entries(entries: &[SealedEntry], low: u32, f: u8) -> Result<usize, Fault>
    requires { (length entries.now ≤ 32) × (low < 65536) }
    ensures near { IfOk result (λ e. e ≤ 14885) }
    ensures answer { result ≡ weigh_entries 2 f low (map sealed_body entries.now) 5 }
{
    let mut at = 5;
    for (i, sealed) in entries.iter().enumerate() {
        at = weigh_sealed(sealed, low + i as u32, f, at)?;
    }
    Ok(at)
}
