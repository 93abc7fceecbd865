//! `archthimble record`: repairs a copy of a record in memory, and says what was found; the file is never written.
use crate::files;
use crate::table::explain;
use crate::words::{ROOM, Word};
use record::{MAX_RECORD, MIN_RECORD};
use std::env::Env;
use std::fs::Files;
use std::io;
use std::io::Eprint;

/// One byte more than a record may have, so that a longer file is refused.
const MOST: usize = MAX_RECORD + 1;

pub fn file(rt: &(impl Print + Eprint + Env + Files), name: Word) -> io::Result<()> {
    let mut room = [0; ROOM];
    let mut bytes = [0; MOST];
    match files::front(rt, name.read(rt, &mut room), &mut bytes) {
        Ok(bytes) => {
            let mut before = [0; MOST];
            before[..bytes.len()].copy_from_slice(bytes);
            show(rt, bytes, &before)
        }
        Err(error) => files::tell(rt, error),
    }
}

fn show(rt: &impl Print, bytes: &mut [u8], before: &[u8]) -> io::Result<()> {
    fields(rt, bytes)?;
    match record::repair(bytes) {
        Ok(()) => println!(rt;
            "repaired: each sector that the count covers ended in the sequence number"
        )?,
        Err(refusal) => explain(rt, refusal)?,
    }
    changes(rt, before, bytes)
}

fn fields(rt: &impl Print, bytes: &[u8]) -> io::Result<()> {
    let len = bytes.len();
    if len > MAX_RECORD {
        return println!(rt; "record                 over {MAX_RECORD} bytes");
    }
    println!(rt; "record          {len:>21} bytes")?;
    if len < MIN_RECORD {
        return Ok(());
    }
    println!(rt; "sequence offset {:>21}", types::number_at(bytes, 4, 2))?;
    println!(rt; "sequence count  {:>21}", types::number_at(bytes, 6, 2))
}

/// Each byte that the repair changed.
fn changes(rt: &impl Print, before: &[u8], after: &[u8]) -> io::Result<()> {
    for (at, (was, is)) in before.iter().zip(after).enumerate() {
        if was != is {
            println!(rt; "byte            {at:>21} was {was:02x}, is {is:02x}")?;
        }
    }
    Ok(())
}
