//! The front of a file that is named on the command line, or why it can't be read.
ghost use Rattle.std.specs.Prelude.{◌≤◌, length, IfOk};

use crate::words::Text;
use std::fs::{File, Files};
use std::io;
use std::io::{Eprint, Read};
use thiserror::Error;

#[derive(Debug, Drop, Error)]
pub enum FileError<'a> {
    #[error("the name of the file: File name too long")]
    NameTooLong,
    #[error("the name of the file: it is not UTF-8")]
    NameNotUtf8,
    #[error("{path}: {error}")]
    Open { path: &'a str, error: io::Error },
    #[error("reading: {0}")]
    Read(#[from] io::Error),
}

/// The front of the file in the room: as many of its bytes as there is room for.
pub fn front<'a, 'r>(
    rt: &impl Files,
    name: Text<'a>,
    room: &'r mut [u8],
) -> Result<&'r mut [u8], FileError<'a>>
    ensures { IfOk result (λ front. length front.now ≤ length room.old) }
{
    let name = name.whole().ok_or(FileError::NameTooLong)?;
    let path = str::from_utf8(name).map_err(|_| FileError::NameNotUtf8)?;
    let mut file = File::open(rt, path).map_err(|error| FileError::Open { path, error })?;
    let len = read_full(&mut file, room)?;
    Ok(&mut room[..len])
}

// std's `read_to_end` takes memory, and doesn't say how much of a file it reads.
/// Reads until the room is full or the file is over, and answers how many bytes came.
fn read_full(file: &mut impl Read, room: &mut [u8]) -> io::Result<usize>
    ensures { IfOk result (λ n. n ≤ length room.new) }
{
    let mut len = 0;
    for _ in 0..room.len() {
        let read = file.read(&mut room[len..])?;
        len += read;
        if read == 0 || len == room.len() {
            break;
        }
    }
    Ok(len)
}

/// Says why a file could not be read. Where standard error can't be written, the sentence on standard output has to do.
pub fn tell(rt: &(impl Print + Eprint), error: FileError<'_>) -> io::Result<()> {
    let _ = eprintln!(rt; "{error}");
    if matches!(error, FileError::NameTooLong) {
        return Ok(());
    }
    println!(rt;
        "That file could not be read. Give one that is there, is no folder and may be read; \
         'archthimble help' has examples."
    )
}

#[cfg(test)]
mod tests {
    use super::*;

    #[test]
    fn the_front_of_a_file_is_read(rt: HostRuntime) {
        let mut room = [1; 512];
        let front = front(&rt, Text::Whole(b"/dev/zero"), &mut room);
        let front = front.expect(&rt, "a file without end");
        assert!(rt; &*front == [0; 512].as_slice());
    }
}
