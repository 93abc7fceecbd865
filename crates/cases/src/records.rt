//! Record repair's cases: a sample with some bytes changed, repaired, what came of it and which bytes changed.
use crate::{Changes, change};
use refusal::Numbered;
use std::io;

/// A case: its name, how many bytes are lent, and which of the sample's are changed before.
type Case<'a> = (&'a str, usize, Changes<'a>);

/// The sample record, and zeros after it.
fn sample() -> [u8; 4097] {
    let mut record = [0; 4097];
    record[..1024].copy_from_slice(&samples::record());
    record
}

fn run(rt: &impl Print, (name, length, changes): Case<'_>) -> io::Result<()> {
    let mut before = sample();
    change(&mut before, changes);
    let mut after = before;
    print!(rt; "{name}, bytes {length}: ")?;
    if let Some(record) = after.get_mut(..length) {
        match record::repair(record) {
            Ok(()) => print!(rt; "repaired")?,
            Err(refusal) => print!(rt; "{}", Numbered(refusal))?,
        }
    }
    for (at, (old, new)) in before.iter().zip(&after).enumerate() {
        if old != new {
            print!(rt; "; {at} is {new}")?;
        }
    }
    println!(rt)
}

const LENGTHS: [Case<'_>; 6] = [
    ("record", 0, &[(0, 0)]),
    ("record", 7, &[(0, 0)]),
    ("offset 6, count 1", 8, &[(4, 6), (6, 1), (7, 0)]),
    ("record", 1024, &[(0, 0)]),
    ("record", 4096, &[(0, 0)]),
    ("record", 4097, &[(0, 0)]),
];

const OFFSETS: [Case<'_>; 3] = [
    ("offset 1022, count 1", 1024, &[(4, 0xfe), (5, 3), (6, 1)]),
    ("offset 1023, count 1", 1024, &[(4, 0xff), (5, 3), (6, 1)]),
    ("offset 7", 8, &[(4, 7)]),
];

/// The sequence count, and the array that it stands for.
const COUNTS: [Case<'_>; 6] = [
    ("count 0", 1024, &[(6, 0)]),
    ("count 1, a wrong end", 1024, &[(6, 1), (510, 8), (511, 8)]),
    ("offset 1018", 1024, &[(4, 0xfa), (5, 3)]),
    ("offset 1019", 1024, &[(4, 0xfb), (5, 3)]),
    ("count 4", 1024, &[(6, 4)]),
    ("count 3", 1023, &[(6, 3)]),
];

const ENDS: [Case<'_>; 4] = [
    ("510 is 8", 1024, &[(510, 8)]),
    ("511 is 8", 1024, &[(511, 8)]),
    ("1022 is 8", 1024, &[(1022, 8)]),
    ("1023 is 8", 1024, &[(1023, 8)]),
];

/// The array over a sector's end, and the number itself there.
const OVERLAPS: [Case<'_>; 2] = [
    (
        "offset 506, entry 1 on the end of sector 0",
        1024,
        &[(4, 0xfa), (5, 1), (506, 7), (508, 0xc1), (509, 0xc2)],
    ),
    (
        "offset 510, the number on the end of sector 0",
        1024,
        &[(4, 0xfe), (5, 1), (512, 0xd1), (513, 0xd2), (514, 0xe1)],
    ),
];

pub fn cases(rt: &impl Print) -> io::Result<()> {
    let tables = [&LENGTHS[..], &OFFSETS, &COUNTS, &ENDS, &OVERLAPS];
    for case in tables.into_iter().flatten() {
        run(rt, *case)?;
    }
    Ok(())
}
