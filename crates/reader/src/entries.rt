// What the check asks of one entry of a proof.
ghost use Rattle.std.specs.Prelude.{◌≡◌};
ghost use Rattle.reader.specs.Checks.{Writes};
ghost use Rattle.reader.specs.Entries.{Records, Tells};

use proof::part::SealedPart;

// Whether an entry writes the item.
pub(crate) fn writes_item(part: SealedPart, item: u8) -> bool
    ensures { Tells part.entry (λ e. Writes e item) result }
{
    part.items().any(|write| write.item == item)
}

// Whether an entry has the item with the digest.
pub(crate) fn records(part: SealedPart, item: u8, digest: &[u8]) -> bool
    ensures { Tells part.entry (λ e. Records e item digest.now) result }
{
    part.items()
        .any(|write| write.item == item && write.digest == digest)
}
