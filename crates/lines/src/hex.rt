// Bytes from hexadecimal digits.
ghost use Rattle.std.specs.Prelude.{◌≡◌, ◌<◌, IfSome};
ghost use Rattle.lines.specs.Hex.{Decodes, digit_value};

// The value of a digit of either case.
fn digit(c: u8) -> Option<u8>
    ensures value { result ≡ digit_value c }
    ensures small { IfSome result (λ v. v < 16) }
{
    match c {
        b'0'..=b'9' => Some(c - b'0'),
        b'a'..=b'f' => Some(c - b'a' + 10),
        b'A'..=b'F' => Some(c - b'A' + 10),
        _ => None,
    }
}

// The bytes of the digits go to the front of `bytes`; the answer is how many there are, none where there is no room or no digit.
pub fn decode(digits: &[u8], bytes: &mut [u8]) -> Option<usize>
    ensures { Decodes digits.now bytes.new result }
{
    let n = digits.len() / 2;
    if digits.len() % 2 != 0 || n > bytes.len() {
        return None;
    }
    // By index: a proof knows of a list that is written by an iterator its length alone.
    for i in 0..n {
        let high = digit(digits[2 * i])?;
        let low = digit(digits[2 * i + 1])?;
        bytes[i] = high * 16 + low;
    }
    Some(n)
}
