// The call that a line asks for.
ghost use Rattle.std.specs.Prelude.{◌≡◌};
ghost use Rattle.lines.specs.Lines.{Frames, call_of, line_call, may_ask_for};

use crate::hex::decode;

// Requests and shares are handed on as they came.
#[derive(Clone, Copy)]
pub enum Call<'a> {
    Deliver(&'a [u8]),
    ShareIn(&'a [u8]),
    Proof(u32, u32),
    Item(u8),
    Mark,
    ShareOut(u32),
}

// The call of a frame, by its kind: its first byte.
pub fn call_of<'a>(frame: &'a [u8]) -> Option<Call<'a>>
    ensures { may_ask_for result ≡ call_of frame.now }
{
    match frame {
        [1, ..] => Some(Call::Deliver(frame)),
        [2, ..] => Some(Call::ShareIn(frame)),
        [3, a, b, c, d] => Some(Call::Proof(
            u16::from_be_bytes([*a, *b]).into(),
            u16::from_be_bytes([*c, *d]).into(),
        )),
        [6, number] => Some(Call::Item(*number)),
        [7] => Some(Call::Mark),
        [8, a, b] => Some(Call::ShareOut(u16::from_be_bytes([*a, *b]).into())),
        _ => None,
    }
}

// The bytes of the longest frame, and the digits of the longest line.
pub const LONGEST_FRAME: usize = 854;

const LINE_LIMIT: usize = 2 * LONGEST_FRAME;

// The bytes of a line, in front of `room`; none where the line is too long, odd or no digits.
fn frame_of<'a>(line: &[u8], room: &'a mut [u8; LONGEST_FRAME]) -> Option<&'a [u8]>
    ensures { Frames line.now result }
{
    if line.len() > LINE_LIMIT {
        return None;
    }
    let n = decode(line, room)?;
    Some(&room[..n])
}

// The call that a line asks for; a request and a share stand in `room`.
pub fn line_call<'a>(line: &[u8], room: &'a mut [u8; LONGEST_FRAME]) -> Option<Call<'a>>
    ensures { may_ask_for result ≡ line_call line.now }
{
    call_of(frame_of(line, room)?)
}
