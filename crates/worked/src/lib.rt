// The worked cases of the boards, the reader, the session and the log, in one statement over the definitions
// that the contracts of the calls use.
#![tactic(auto)]

ghost use Rattle.worked.specs.Cases.{WorkedCases};

// Stands for the proof of the worked cases.
pub fn cases_stand() -> bool
    ensures { WorkedCases }
{
    true
}
