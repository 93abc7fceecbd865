//! Replays the fixed list: answers that crate ntfs 0.4.0 gave, entry by entry, against the library through the calls
//! that C has. Each entry is tried once more with its last word altered and must then differ, so that a comparison that
//! sees nothing is seen.
#![tactic(auto)]

mod body;
mod history;
mod kind;
mod report;
mod single;
mod spans;

use report::Report;
use std::fs::File;
use std::io;
use std::io::Read;

/// What the list begins with.
const MARK: [u8; 8] = *b"NTFS-0.4";

/// How many bytes an entry's body has at most.
const ROOM: usize = 2048;

fn word(file: &mut impl Read) -> Option<u64> {
    let mut bytes = [0; 8];
    file.read_exact(&mut bytes).ok()?;
    Some(u64::from_le_bytes(bytes))
}

/// How many entries the list has, where it is one.
fn head(file: &mut impl Read) -> Option<u64> {
    let mut mark = [0; MARK.len()];
    file.read_exact(&mut mark).ok()?;
    let count = word(file)?;
    (mark == MARK).then_some(count)
}

/// The next entry's kind and body, where all of it is there and fits the room.
fn entry<'a>(file: &mut impl Read, room: &'a mut [u8]) -> Option<(u64, &'a mut [u8])> {
    let mut head = [0; 16];
    file.read_exact(&mut head).ok()?;
    let (kind, length) = head.split_first_chunk()?;
    let kind = u64::from_le_bytes(*kind);
    let length = u64::from_le_bytes(*length.first_chunk()?);
    let body = room.get_mut(..usize::try_from(length).ok()?)?;
    file.read_exact(body).ok()?;
    Some((kind, body))
}

fn entries(rt: &impl Print, file: &mut impl Read, count: u64) -> io::Result<Report> {
    let mut report = Report::default();
    let mut room = [0; ROOM];
    for _ in 0..count {
        let Some((kind, body)) = entry(file, &mut room) else {
            println!(rt; "the list is cut short, or an entry is too long")?;
            return Ok(report);
        };
        report.note(kind, body);
    }
    if file.read_exact(&mut [0]).is_ok() {
        println!(rt; "there is more behind the last entry")?;
    }
    Ok(report)
}

fn replay(rt: &impl Print, mut file: impl Read + Drop) -> io::Result<()> {
    let Some(count) = head(&mut file) else {
        return println!(rt; "answers.bin is no list of answers");
    };
    let report = entries(rt, &mut file, count)?;
    print!(rt; "{report}")
}

fn main(rt: HostRuntime) -> io::Result<()> {
    match File::open(&rt, "answers.bin") {
        Ok(file) => replay(&rt, file),
        Err(error) => {
            // where standard error can't be written either, there is nobody to tell
            let _ = eprintln!(rt; "answers.bin: {error}");
            Ok(())
        }
    }
}
