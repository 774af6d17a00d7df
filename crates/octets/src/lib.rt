// Numbers as bytes, high byte first, and bytes that are put into a buffer: the answer in front, the old bytes behind.
#![tactic(auto)]

ghost use Rattle.std.specs.Prelude.{◌≡◌, ◌+◌, ◌≤◌, ◌++◌, length, take};
ghost use Rattle.octets.specs.Numbers.{be, limit, number_at};
ghost use Rattle.octets.specs.Parts.{over, part_at};

// How many bytes a version, a commit count or a sequence number takes.
pub const WIDTH: usize = 2;

// The largest version, commit count or sequence number.
pub const LIMIT: u32 = 65535;

// The number that stands at a place.
pub fn number_at(bytes: &[u8], at: usize) -> u32
    requires { at + 2 ≤ length bytes.now }
    ensures value { result ≡ number_at bytes.now at 2 }
    ensures fits { result ≤ limit 2 }
{
    u16::from_be_bytes([bytes[at], bytes[at + 1]]).into()
}

// Puts a number to the front of a buffer.
pub fn put_number(n: u32, out: &mut [u8])
    requires { (n ≤ limit 2) × (2 ≤ length out.old) }
    ensures { out.new ≡ over (be 2 n) out.old }
{
    out[..2].copy_from_slice(&(n as u16).to_be_bytes());
}

// Puts bytes to the front of a buffer.
pub fn put_bytes(bytes: &[u8], out: &mut [u8])
    requires { length bytes.now ≤ length out.old }
    ensures { out.new ≡ over bytes.now out.old }
{
    out[..bytes.len()].copy_from_slice(bytes);
}

// Puts bytes to a buffer from a place on; the answer is where they end.
pub fn put_at(bytes: &[u8], at: usize, out: &mut [u8]) -> usize
    requires { at + length bytes.now ≤ length out.old }
    ensures end { result ≡ at + length bytes.now }
    ensures front { take result out.new ≡ take at out.old ++ bytes.now }
{
    let end = at + bytes.len();
    out[at..end].copy_from_slice(bytes);
    end
}

// Some bytes of a string, as a part of it.
pub fn part<'a>(bytes: &'a [u8], at: usize, n: usize) -> &'a [u8]
    requires { at + n ≤ length bytes.now }
    ensures value { result.now ≡ part_at bytes.now at n }
    ensures long { length result.now ≡ n }
{
    &bytes[at..at + n]
}
