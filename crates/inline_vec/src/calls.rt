// How a list is made, read and changed.
ghost use Rattle.std.specs.Prelude.{◌≡◌, ◌+◌, ◌<◌, ◌≤◌, min, [], ◌∷◌, ◌++◌, length, take, IsOk, OnOk, OnErr, ◌↔◌, ◌==◌};
ghost use Rattle.inline_vec.specs.Lists.{items};

use super::InlineVec;

// A list with no place left refuses what it is handed.
#[derive(Clone, Copy, PartialEq, Eq, Debug)]
pub struct Full;

impl<T: Copy, const N: usize> InlineVec<T, N> {
    // An empty list; its places hold a value that no one reads.
    pub fn new(unread: T) -> InlineVec<T, N>
        ensures { items result ≡ [] }
    {
        InlineVec {
            places: [unread; N],
            len: 0,
        }
    }

    // One value more, behind the others.
    pub fn push(&mut self, value: T) -> Result<(), Full>
        ensures variant { IsOk result ↔ (length (items self.old) < N) }
        ensures ok { OnOk result (items self.new ≡ items self.old ++ value ∷ []) }
        ensures err { OnErr result (self.new ≡ self.old) }
    {
        if self.len == N {
            return Err(Full);
        }
        self.places[self.len] = value;
        self.len += 1;
        Ok(())
    }

    // All of a slice, behind what is there, or nothing where it has no room.
    pub fn extend_from_slice(&mut self, values: &[T]) -> Result<(), Full>
        ensures variant { IsOk result ↔ (length (items self.old) + length values.now ≤ N) }
        ensures ok { OnOk result (items self.new ≡ items self.old ++ values.now) }
        ensures err { OnErr result (self.new ≡ self.old) }
    {
        if values.len() > N - self.len {
            return Err(Full);
        }
        let end = self.len + values.len();
        let places = &mut self.places[..];
        places[self.len..end].copy_from_slice(values);
        self.len = end;
        Ok(())
    }
}

impl<T, const N: usize> InlineVec<T, N> {
    // An empty list over the places that it is handed.
    pub fn over(places: [T; N]) -> InlineVec<T, N>
        ensures { items result ≡ [] }
    {
        InlineVec { places, len: 0 }
    }

    pub fn len(&self) -> usize
        ensures value { result ≡ length (items self.now) }
        ensures fits { result ≤ N }
    {
        self.len
    }

    pub fn is_empty(&self) -> bool
        ensures { result ≡ (length (items self.now) == 0) }
    {
        self.len == 0
    }

    pub fn as_slice(&self) -> &[T]
        ensures value { result.now ≡ items self.now }
        ensures fits { length result.now ≤ N }
    {
        let places = &self.places[..];
        &places[..self.len]
    }
}

impl<T: Drop, const N: usize> InlineVec<T, N> {
    // Keeps the first values only.
    pub fn truncate(&mut self, len: usize)
        ensures { items self.new ≡ take len (items self.old) }
    {
        self.len = self.len.min(len);
    }

    pub fn clear(&mut self)
        ensures { items self.new ≡ [] }
    {
        self.len = 0;
    }
}
