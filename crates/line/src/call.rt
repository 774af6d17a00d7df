// The call that a line asks for, as a bank with no commits takes it.
ghost use Rattle.std.specs.Prelude.{◌≡◌};
ghost use Rattle.lines.specs.Lines.{asks_for};
ghost use Rattle.line.specs.Lines.{line_call, named};

use lines::call::LONGEST_FRAME;

// Requests and shares are named by their kind alone; no bank here takes them yet.
#[derive(Clone, Copy)]
pub enum Call {
    Deliver,
    ShareIn,
    Proof(u32, u32),
    Item(u8),
    Mark,
    ShareOut(u32),
}

// A call without the frame that it hands on.
fn named(call: lines::call::Call<'_>) -> Call
    ensures { result ≡ named (asks_for call.entry) }
{
    match call {
        lines::call::Call::Deliver(_) => Call::Deliver,
        lines::call::Call::ShareIn(_) => Call::ShareIn,
        lines::call::Call::Proof(low, high) => Call::Proof(low, high),
        lines::call::Call::Item(number) => Call::Item(number),
        lines::call::Call::Mark => Call::Mark,
        lines::call::Call::ShareOut(version) => Call::ShareOut(version),
    }
}

// The call that a line asks for.
pub fn line_call(line: &[u8]) -> Option<Call>
    ensures { result ≡ line_call line.now }
{
    let mut room = [0; LONGEST_FRAME];
    let call = lines::call::line_call(line, &mut room)?;
    Some(named(call))
}
