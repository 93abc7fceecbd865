//! What the scope of work says of the reader, run call by call: its cases C4 to C6, C15 and C16, and others beside
//! them.
#![tactic(auto)]

mod trial;
mod unsound;

use non_resident::Whence;
use std::io;
use trial::Trial;

/// Two runs, a hole and a run: 1024, 512, 1536 and 1024 bytes with clusters of 512.
const LIST: &[u8] = b"\x11\x02\x0a\x11\x01\xfe\x01\x03\x11\x02\x05\x00";

/// A list whose second run is refused.
const BROKEN: &[u8] = b"\x11\x01\x0a\x09";

/// A list that ends before the data does.
const SHORT: &[u8] = b"\x11\x01\x0a";

// constants, so by `as`: `From` is no const function
/// The largest u64, and the smallest i64.
const MOST: i128 = u64::MAX as i128;

const LEAST: i128 = i64::MIN as i128;

fn spans(rt: &impl Print) -> io::Result<()> {
    println!(rt; "C4")?;
    let read = Trial::open(rt, LIST, 512, 4000)?
        .seek(rt, Whence::Start, 900)?
        .read(rt, 1000, 9)?;
    read.data_position(rt)?;
    println!(rt; "C5")?;
    read.seek(rt, Whence::Start, 3900)?
        .read(rt, 500, 9)?
        .read(rt, 500, 9)?;
    Ok(())
}

fn positions(rt: &impl Print) -> io::Result<()> {
    println!(rt; "C6")?;
    Trial::open(rt, LIST, 512, 4000)?
        .read(rt, 1024, 9)?
        .data_position(rt)?;
    Trial::open(rt, LIST, 512, 4000)?
        .seek(rt, Whence::Start, 1024)?
        .data_position(rt)
}

fn broken(rt: &impl Print) -> io::Result<()> {
    println!(rt; "C15")?;
    Trial::open(rt, BROKEN, 512, 4000)?
        .read(rt, 600, 9)?
        .read(rt, 600, 9)?
        .seek(rt, Whence::Place, 0)?;
    Trial::open(rt, BROKEN, 512, 4000)?.seek(rt, Whence::Start, 512)?;
    Ok(())
}

fn targets(rt: &impl Print) -> io::Result<()> {
    println!(rt; "C16")?;
    let opened = Trial::open(rt, LIST, 512, 4000)?;
    for amount in [LEAST, -4001, -4000, MOST - 4000, MOST - 3999] {
        opened.seek(rt, Whence::End, amount)?;
    }
    opened.seek(rt, Whence::Start, -1)?;
    past_all(rt, opened.seek(rt, Whence::Start, MOST)?)
}

/// From the last place on, and back into the runs.
fn past_all(rt: &impl Print, last: Trial<'_>) -> io::Result<()> {
    for amount in [1, LEAST + 1, 0] {
        last.seek(rt, Whence::Place, amount)?;
    }
    let hole = last.seek(rt, Whence::Start, 1600)?;
    hole.data_position(rt)?;
    hole.seek(rt, Whence::Place, -600)?
        .seek(rt, Whence::Place, 24)?;
    Ok(())
}

fn rooms(rt: &impl Print) -> io::Result<()> {
    println!(rt; "room")?;
    let trial = Trial::open(rt, LIST, 512, 4000)?.seek(rt, Whence::Start, 900)?;
    for (bytes, words) in [(1000, 2), (1000, 8), (0, 9)] {
        trial.read(rt, bytes, words)?;
    }
    trial.seek(rt, Whence::Start, 4000)?.read(rt, 1, 9)?;
    Trial::open(rt, LIST, 512, 9000)?
        .seek(rt, Whence::Start, 4096)?
        .read(rt, 1, 9)?;
    let end = Trial::open(rt, SHORT, 512, 9000)?.read(rt, 600, 9)?;
    end.data_position(rt)?;
    end.read(rt, 600, 9)?;
    Ok(())
}

fn main(rt: HostRuntime) -> io::Result<()> {
    spans(&rt)?;
    positions(&rt)?;
    broken(&rt)?;
    targets(&rt)?;
    rooms(&rt)?;
    unsound::cases(&rt, LIST)
}
