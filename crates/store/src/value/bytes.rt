// How a value is made of bytes, and read.
ghost use Rattle.std.specs.Prelude.{◌≡◌, ◌<◌, ◌≤◌, [], length, Some, None, MatchResult};
ghost use Rattle.store.specs.Slot.{value_of};

use super::Value;
use inline_vec::InlineVec;

// No value has more than 32 bytes.
#[derive(Clone, Copy, PartialEq, Eq, Debug)]
pub struct TooLong;

impl TryFrom<&[u8]> for Value {
    type Error = TooLong;

    ghost try_from_gives = { λ bytes r. MatchResult r (λ v. value_of v ≡ bytes.now) (λ _. 32 < length bytes.now) };

    fn try_from(bytes: &[u8]) -> Result<Value, TooLong> {
        let mut held = InlineVec::new(0);
        held.extend_from_slice(bytes).map_err(|_| TooLong)?;
        Ok(Value { bytes: held })
    }
}

impl Value {
    pub fn empty() -> Value
        ensures { value_of result ≡ [] }
    {
        Value {
            bytes: InlineVec::new(0),
        }
    }

    pub fn new(bytes: &[u8]) -> Option<Value>
        ensures { elim result [ Some v ↦ value_of v ≡ bytes.now | None ↦ 32 < length bytes.now ] }
    {
        Value::try_from(bytes).ok()
    }

    pub fn len(&self) -> u8
        ensures { (result ≡ length (value_of self.now)) × (result ≤ 32) }
    {
        self.bytes.len() as u8
    }

    pub fn as_slice(&self) -> &[u8]
        ensures { result.now ≡ value_of self.now }
    {
        self.bytes.as_slice()
    }
}
