// The range of versions that a proof covers.
ghost use Rattle.std.specs.Prelude.{◌≡◌, ◌+◌, ◌-◌, ◌<◌, ◌≤◌, length, IfOk};
ghost use Rattle.proof.specs.Bodies.{range as ranged};
ghost use Rattle.proof.specs.Ends.{range_of};

use crate::kind::malformed;
use fault::Fault;
use octets::number_at;
use record::kind::Kind;

#[derive(Clone, Copy)]
pub(crate) struct Range {
    pub(crate) low: u32,
    pub(crate) high: u32,
}

// Whether there are 1 to 32 versions from low to high, or none with low 1 and high 0.
pub(crate) fn is_range(low: u32, high: u32) -> bool
    requires { low < 65536 }
    ensures { result ≡ ranged low high }
{
    (low <= high && high <= low + 31) || (low == 1 && high == 0)
}

// The kind, low and high of a frame, from the front.
pub(crate) fn read_range(bytes: &[u8]) -> Result<Range, Fault>
    ensures answer { result ≡ range_of 2 bytes.now }
    ensures within { IfOk result (λ g. (1 ≤ g.low) × (g.low < 65536) × (g.high < 65536) × (g.high + 1 - g.low ≤ 32) × (5 ≤ length bytes.now)) }
{
    let n = bytes.len();
    if n < 1 {
        return Err(malformed(n));
    }
    if bytes[0] != Kind::Proof as u8 {
        return Err(malformed(0));
    }
    if n < 3 {
        return Err(malformed(n));
    }
    let low = number_at(bytes, 1);
    if low == 0 {
        return Err(malformed(1));
    }
    if n < 5 {
        return Err(malformed(n));
    }
    let high = number_at(bytes, 3);
    if !is_range(low, high) {
        return Err(malformed(3));
    }
    Ok(Range { low, high })
}
