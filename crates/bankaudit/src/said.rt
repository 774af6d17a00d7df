// What a line of the input says.
ghost use Rattle.std.specs.Prelude.{ℕ};
ghost use Rattle.bankaudit.specs.Said.{Within};

use board::state::Mark;
use lines::call::{Call, LONGEST_FRAME, line_call};
use lines::hex::decode;
use std::str::from_utf8;

// A request's bytes lie in the room that it was read to, by their lifetime.
#[derive(Clone, Copy)]
pub(crate) enum Line<'a> {
    Passed,
    Request(&'a [u8]),
    Report(u8, Mark),
}

// The mark of an answer line to 07: 00, count, chain.
fn mark_of(answer: &[u8]) -> Option<Mark> {
    let mut bytes = [0; 35];
    let n = decode(answer, &mut bytes)?;
    if n != 35 || bytes[0] != 0 {
        return None;
    }
    let mut chain = [0; 32];
    chain.copy_from_slice(&bytes[3..]);
    let count = u16::from_be_bytes([bytes[1], bytes[2]]).into();
    Some(Mark { count, chain })
}

// A report, behind its first word: the board's number and the answer that it printed. It is never a request.
fn read_report<'a>(rest: &str) -> Option<Line<'a>>
    ensures { (room : ℕ) → Within result room }
{
    let (number, answer) = rest.split_once(' ')?;
    let board = number.parse::<u8>().ok()?;
    Some(Line::Report(board, mark_of(answer.as_bytes())?))
}

// A line of the board's program: a request, or a call that changes no commits.
fn read_call<'a>(line: &[u8], room: &'a mut [u8; LONGEST_FRAME]) -> Option<Line<'a>> {
    match line_call(line, room)? {
        Call::Deliver(frame) => Some(Line::Request(frame)),
        _ => Some(Line::Passed),
    }
}

// What a line says, none where it is not understood; empty lines and remarks are passed over.
pub(crate) fn read<'a>(line: &[u8], room: &'a mut [u8; LONGEST_FRAME]) -> Option<Line<'a>> {
    if line.is_empty() || line[0] == b'#' {
        return Some(Line::Passed);
    }
    match from_utf8(line).ok()?.strip_prefix("mark ") {
        Some(rest) => read_report(rest),
        None => read_call(line, room),
    }
}
