// The range of versions that a reading asks a proof for.
ghost use Rattle.std.specs.Prelude.{◌≡◌, ℕ, max, List, Decides};
ghost use Rattle.proof.specs.Bodies.{ProofBody};
ghost use Rattle.proof.specs.Parts.{Holds};
ghost use Rattle.reading.specs.Readings.{Found, held};
ghost use Rattle.reader.specs.Checks.{highest as highestOf, lowest as lowestOf};

use proof::read::Proof;
use reading::Reading;

// The highest version read.
pub fn highest(reading: Reading) -> u32
    ensures { (bs : List ℕ) → Found bs reading.entry → result ≡ highestOf (held reading.entry).items }
{
    reading.items().map(|read| read.version).max().unwrap_or(0)
}

// The lowest version read.
pub fn lowest(reading: Reading) -> u32
    ensures { (bs : List ℕ) → Found bs reading.entry → result ≡ lowestOf (held reading.entry).items }
{
    reading.items().map(|read| read.version).min().unwrap_or(0)
}

// Whether a proof goes from the lowest version read, a lowest 0 counting as 1, to the highest.
pub(crate) fn covers(proof: Proof, lowest: u32, highest: u32) -> bool
    ensures { (f : ℕ) (b : ProofBody) → Holds f proof.entry b → Decides result ((b.low ≡ max 1 lowest) × (b.high ≡ highest)) }
{
    let low = proof.low();
    let high = proof.high();
    low == lowest.max(1) && high == highest
}
