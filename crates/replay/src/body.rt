//! An entry's body, taken from the front. None says that what is asked for isn't there, or that it differs.

/// How many bytes a run list has at most.
const LIST: usize = 64;

/// What is left of a body: words of eight bytes, low byte first, and pieces of bytes.
#[derive(Clone, Copy, Debug)]
pub struct Body<'a> {
    rest: &'a [u8],
}

impl<'a> Body<'a> {
    pub fn new(bytes: &'a [u8]) -> Self {
        Body { rest: bytes }
    }

    pub fn is_over(&self) -> bool {
        self.rest.is_empty()
    }

    fn take(&mut self, count: usize) -> Option<&'a [u8]> {
        let (taken, rest) = self.rest.split_at_checked(count)?;
        self.rest = rest;
        Some(taken)
    }

    pub fn word(&mut self) -> Option<u64> {
        let (word, rest) = self.rest.split_first_chunk()?;
        self.rest = rest;
        Some(u64::from_le_bytes(*word))
    }

    pub fn size(&mut self) -> Option<usize> {
        usize::try_from(self.word()?).ok()
    }

    /// A piece of bytes, its length before it and padding behind it up to a whole word.
    pub fn bytes(&mut self) -> Option<&'a [u8]> {
        let length = self.size()?;
        let bytes = self.take(length)?;
        self.take((8 - length % 8) % 8)?;
        Some(bytes)
    }

    pub fn list(&mut self) -> Option<&'a [u8]> {
        let list = self.bytes()?;
        (list.len() <= LIST).then_some(list)
    }

    /// Bytes that are zeros but for some pieces, each with its place before it: the front of `room`, which holds zeros
    /// before.
    pub fn sparse<'b>(&mut self, room: &'b mut [u8]) -> Option<&'b mut [u8]> {
        let length = self.size()?;
        for _ in 0..self.word()? {
            let place = self.size()?;
            let piece = self.bytes()?;
            room.get_mut(place..)?
                .get_mut(..piece.len())?
                .copy_from_slice(piece);
        }
        room.get_mut(..length)
    }

    /// Goes past `words`, where they come next.
    pub fn expect(&mut self, words: &[u64]) -> Option<()> {
        for word in words {
            if self.word()? != *word {
                return None;
            }
        }
        Some(())
    }

    /// The same for an answer: a number, and words.
    pub fn answer(&mut self, number: u64, words: &[u64]) -> Option<()> {
        self.expect(&[number])?;
        self.expect(words)
    }
}

/// Alters the last word.
pub fn alter(body: &mut [u8]) {
    if let Some(word) = body.last_chunk_mut::<8>() {
        word[0] = u8::from(word[0] == 0);
    }
}
