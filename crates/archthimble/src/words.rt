//! The words of the command line, and the bytes and numbers that they spell. A word need not be UTF-8, as std's
//! `env::args` and the crate clap want it: it is printed as it was typed.
use arrayvec::ArrayVec;
use std::env::{Env, FillError};
use std::io;

/// How many bytes of a word are read.
pub const ROOM: usize = 4096;

/// How many words are looked at: with the program's own name one more than any command has, so that too many show.
const MOST: usize = 8;

/// A word of the command line, by its place there. It is read where it is needed, so that there is no room for a word
/// that isn't.
#[derive(Clone, Copy, Debug, Default)]
pub struct Word(usize);

/// What a word spells, or the front of one that is longer than the room for it.
#[derive(Clone, Copy, Debug)]
pub enum Text<'a> {
    Whole(&'a [u8]),
    Cut(&'a [u8]),
}

impl Word {
    fn is_typed(self, rt: &impl Env) -> bool {
        !matches!(rt.arg(self.0, &mut []), Err(FillError::NotPresent))
    }

    /// What the word spells; the room is what it is read into.
    pub fn read<'a>(self, rt: &impl Env, room: &'a mut [u8; ROOM]) -> Text<'a> {
        match rt.arg(self.0, room) {
            Ok(len) => Text::Whole(&room[..len]),
            Err(FillError::TooLong) => Text::Cut(room),
            Err(FillError::NotPresent) => Text::Cut(&[]),
        }
    }
}

impl<'a> Text<'a> {
    pub fn whole(self) -> Option<&'a [u8]> {
        match self {
            Text::Whole(bytes) => Some(bytes),
            Text::Cut(_) => None,
        }
    }

    /// As much of the word as can be printed.
    pub fn front(self) -> &'a [u8] {
        match self {
            Text::Whole(bytes) | Text::Cut(bytes) => bytes,
        }
    }
}

/// The words that were typed, the program's own name among them; of many the first.
pub fn typed(rt: &impl Env) -> ArrayVec<Word, MOST> {
    let mut words = ArrayVec::new();
    for word in (0..MOST).map(Word) {
        if !word.is_typed(rt) || words.try_push(word).is_err() {
            break;
        }
    }
    words
}

// A Vec would take memory, which no command needs.
/// Bytes in hex, put into the room: a blank stands between bytes, not inside one.
fn bytes<'a>(text: &[u8], room: &'a mut [u8; ROOM]) -> Option<&'a [u8]> {
    let mut len = 0_usize;
    for piece in text.split(|byte| *byte == b' ') {
        let end = len.checked_add(piece.len() / 2)?;
        hex::decode_to_slice(piece, room.get_mut(len..end)?).ok()?;
        len = end;
    }
    room.get(..len)
}

/// A decimal number of 64 bits. It is digits alone, where `parse` takes a sign too.
fn decimal(text: &[u8]) -> Option<u64> {
    if !text.iter().all(u8::is_ascii_digit) {
        return None;
    }
    str::from_utf8(text).ok()?.parse().ok()
}

/// The run list that the word spells, put into the room; where it spells none, that is said.
pub fn list<'a>(
    rt: &(impl Print + Env),
    word: Word,
    room: &'a mut [u8; ROOM],
) -> io::Result<Option<&'a [u8]>> {
    let mut text = [0; ROOM];
    spelled(rt, word.read(rt, &mut text), room)
}

fn spelled<'a>(
    rt: &impl Print,
    text: Text<'_>,
    room: &'a mut [u8; ROOM],
) -> io::Result<Option<&'a [u8]>> {
    let Some(text) = text.whole() else {
        println!(rt; "The list is too long: as it is typed it may have {ROOM} characters.")?;
        return Ok(None);
    };
    let list = bytes(text, room);
    if list.is_none() {
        println!(rt; "The list must be whole bytes in hex, as in: '11 02 0A 00'")?;
    }
    Ok(list)
}

/// The number that the word spells; where it spells none, that is said.
pub fn number(rt: &(impl Print + Env), word: Word) -> io::Result<Option<u64>> {
    let mut room = [0; ROOM];
    let text = word.read(rt, &mut room);
    let number = text.whole().and_then(decimal);
    if number.is_none() {
        rt.write_all(text.front())?;
        println!(rt;
            ": this must be a number from 0 to {}, in digits.",
            u64::MAX
        )?;
    }
    Ok(number)
}

#[cfg(test)]
mod tests {
    use super::*;

    #[test]
    fn a_list_is_bytes_in_hex(rt: HostRuntime) {
        let mut room = [0; ROOM];
        let list = spelled(&rt, Text::Whole(b"11 020A ff"), &mut room);
        let list = list.expect(&rt, "a list").expect(&rt, "hex");
        assert!(rt; list == [0x11, 0x02, 0x0a, 0xff].as_slice());
    }
}
