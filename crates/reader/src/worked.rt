// A reading that is accepted, with every premise of what acceptance means, and one that is refused.
ghost use Rattle.reader.specs.Example.{AcceptedAndRefused};

// Stands for the proof that both occur.
pub fn accepted_and_refused() -> bool
    ensures { AcceptedAndRefused }
{
    true
}
