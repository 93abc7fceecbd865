//! Run lists: every run of a list up to its end or its refused run.
use data_runs::{Cursor, Place, Run};
use refusal::Numbered;
use std::io;

/// A case: its name, the list, the cluster size and the LCN before the first run.
type Case<'a> = (&'a str, &'a [u8], u64, u64);

const SOUND: [Case<'_>; 5] = [
    ("C1, cluster", b"\x21\x18\x34\x56\x00", 4096, 0),
    ("C2, cluster", b"\x11\x01\x00", 512, 7),
    (
        "C3, cluster",
        b"\x11\x02\x0a\x11\x01\xfe\x01\x03\x11\x02\x05\x00",
        512,
        0,
    ),
    ("no list, cluster", b"", 512, 0),
    (
        "LCN 0 computed, cluster",
        b"\x11\x01\x01\x11\x01\xff",
        512,
        0,
    ),
];

const REFUSED: [Case<'_>; 9] = [
    ("C7, cluster", b"\x11\x01\x80", 512, 0),
    ("C8, cluster", b"\x21\x18\x34", 512, 0),
    ("C9, cluster", b"\x09", 512, 0),
    ("C10, cluster", b"\x90", 512, 0),
    ("C11, cluster", b"\x91\x01", 512, 0),
    (
        "C12, cluster",
        b"\x71\x01\xff\xff\xff\xff\xff\xff\x7f",
        512,
        0,
    ),
    (
        "C13, cluster",
        b"\x81\x01\x00\x00\x00\x00\x00\x00\x80\x00",
        512,
        0,
    ),
    (
        "C14, cluster",
        b"\x18\xff\xff\xff\xff\xff\xff\xff\xff",
        512,
        0,
    ),
    ("C15's list, cluster", b"\x11\x01\x0a\x09", 512, 0),
];

/// Both sides of the largest size, and of an LCN, a run's end and its place where they stop fitting 64 bits.
const LIMITS: [Case<'_>; 8] = [
    (
        "size 2^64 - 512, cluster",
        b"\x07\xff\xff\xff\xff\xff\xff\x7f",
        512,
        0,
    ),
    (
        "size 2^64, cluster",
        b"\x08\x00\x00\x00\x00\x00\x00\x80\x00",
        512,
        0,
    ),
    ("LCN up by 1, cluster", b"\x11\x01\x01", 512, u64::MAX),
    ("LCN down to 0, cluster", b"\x11\x01\xfe", 512, 2),
    ("LCN below 0, cluster", b"\x11\x01\xfe", 512, 1),
    (
        "end 2^64 - 512, cluster",
        b"\x11\x01\x01",
        512,
        0x7f_ffff_ffff_fffd,
    ),
    (
        "end 2^64, cluster",
        b"\x11\x01\x01",
        512,
        0x7f_ffff_ffff_fffe,
    ),
    (
        "place 2^64, cluster",
        b"\x11\x01\x01",
        512,
        0x7f_ffff_ffff_ffff,
    ),
];

const CLUSTERS: [Case<'_>; 4] = [
    ("cluster", b"\x11\x01\x01", 256, 0),
    ("cluster", b"\x11\x01\x01", 513, 0),
    ("cluster", b"\x11\x01\x01", 2097152, 0),
    ("cluster", b"\x11\x01\x01", 4194304, 0),
];

fn found(rt: &impl Print, run: Run) -> io::Result<()> {
    let Run { size, place } = run;
    match place {
        Place::Disk(place) => print!(rt; "; {size} at {place}"),
        Place::Hole => print!(rt; "; hole {size}"),
    }
}

/// All runs of a list.
fn walk(rt: &impl Print, (name, list, cluster, lcn): Case<'_>) -> io::Result<()> {
    print!(rt; "{name} {cluster}")?;
    let mut cursor = Cursor { at: 0, lcn };
    // each run has a byte at least
    for _ in 0..=list.len() {
        match cursor.next(list, cluster) {
            Ok(Some((run, next))) => {
                found(rt, run)?;
                cursor = next;
            }
            Ok(None) => {
                print!(rt; "; over")?;
                break;
            }
            Err(refusal) => {
                print!(rt; "; {}", Numbered(refusal))?;
                break;
            }
        }
    }
    let Cursor { lcn, .. } = cursor;
    println!(rt; "; LCN {lcn}")
}

pub fn cases(rt: &impl Print) -> io::Result<()> {
    let tables = [&SOUND[..], &REFUSED, &LIMITS, &CLUSTERS];
    for case in tables.into_iter().flatten() {
        walk(rt, *case)?;
    }
    Ok(())
}
