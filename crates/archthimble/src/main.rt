//! archthimble: what a disk's parts say, by the proved library.
#![tactic(auto)]

mod boot;
mod files;
mod records;
mod runs;
mod spans;
mod table;
mod words;

use std::env::Env;
use std::fs::Files;
use std::io;
use std::io::Eprint;
use words::{ROOM, Word};

/// It is written at once, so that a reader that takes its first lines and closes breaks nothing.
const USAGE: &[u8] = b"\
archthimble shows what the parts of an NTFS disk say, by a proved library. It changes no file.

archthimble                    a stretch of a stream, read from a run list that is built in

archthimble boot [FILE]        the geometry in a boot sector, or in a disk image's first 512 bytes;
                               without a file, in a sector that is built in
    archthimble boot disk.img

archthimble record FILE        a file record or index record of 8 to 4096 bytes: repairs a copy,
                               and says what was found and which bytes changed
    archthimble record record.bin

archthimble runs LIST CLUSTER  the runs of a list in hex, at a cluster size in bytes
    archthimble runs '11 02 0A 11 01 FE 01 03 11 02 05 00' 512

archthimble spans LIST CLUSTER SIZE OFFSET LENGTH
                               where LENGTH bytes from OFFSET on lie, in a stream of SIZE bytes
    archthimble spans '11 02 0A 11 01 FE 01 03 11 02 05 00' 512 4000 900 1000

archthimble help               this

A bar shows the stream from left to right: # lies on the disk, . in a hole.
Behind an = sign a size is in clusters, and a place is in a cluster: 1000 bytes = 1 x 512 + 488.
What is refused is named by its number and a sentence; the exit status is 0 all the same, so read
the words. Numbers are decimal, from 0 to 2^64 - 1.
";

fn run(rt: &(impl Print + Eprint + Env + Files), command: Word, words: &[Word]) -> io::Result<()> {
    let mut room = [0; ROOM];
    match (command.read(rt, &mut room).front(), words) {
        (b"boot", []) => boot::sample(rt),
        (b"boot", [file]) => boot::file(rt, *file),
        (b"boot", _) => example(rt, "boot disk.img"),
        (b"record", [file]) => records::file(rt, *file),
        (b"record", _) => example(rt, "record record.bin"),
        (b"runs", [list, cluster]) => runs::typed(rt, *list, *cluster),
        (b"runs", _) => example(rt, "runs '11 02 0A 00' 512"),
        (b"spans", [list, cluster, size, offset, length]) => {
            spans::typed(rt, *list, [*cluster, *size, *offset, *length])
        }
        (b"spans", _) => example(rt, "spans '11 02 0A 00' 512 1000 0 1000"),
        (b"help" | b"--help", _) => rt.write_all(USAGE),
        (other, _) => unknown(rt, other),
    }
}

/// Says what to type where a command takes other words.
fn example(rt: &impl Print, words: &str) -> io::Result<()> {
    println!(rt; "That takes other words. For example: archthimble {words}")?;
    println!(rt; "'archthimble help' says what they mean.")
}

fn unknown(rt: &impl Print, word: &[u8]) -> io::Result<()> {
    print!(rt; "archthimble does not know '")?;
    rt.write_all(word)?;
    println!(rt; "'. This is what there is:\n")?;
    rt.write_all(USAGE)
}

/// An error here is one of printing. It is printed as std does it, where anyhow has other words.
fn main(rt: HostRuntime) -> io::Result<()> {
    match words::typed(&rt).as_slice() {
        [] | [_] => spans::sample(&rt),
        [_, command, words @ ..] => run(&rt, *command, words),
    }
}
