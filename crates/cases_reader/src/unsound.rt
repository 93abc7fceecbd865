//! Readers that no call gives, each unsound in one part, and their neighbours that are not.
use crate::trial::Trial;
use data_runs::{Cursor, Place, Run};
use non_resident::{Reader, Stand, Whence};
use std::io;

fn on_disk(size: u64, place: u64) -> Option<Run> {
    Some(Run {
        size,
        place: Place::Disk(place),
    })
}

fn hole(size: u64) -> Option<Run> {
    Some(Run {
        size,
        place: Place::Hole,
    })
}

fn reader(cluster: u64, at: usize, current: Option<Run>, displacement: u64) -> Reader {
    let cursor = Cursor { at, lcn: 0 };
    Reader {
        cluster,
        stand: Stand {
            cursor,
            current,
            displacement,
        },
        place: 100,
        size: 4000,
    }
}

fn readers() -> [Reader; 11] {
    [
        reader(511, 0, None, 0),
        reader(4194304, 0, None, 0),
        reader(2097152, 0, None, 0),
        reader(512, 12, None, 0),
        reader(512, 13, None, 0),
        reader(512, 0, None, 1),
        reader(512, 3, on_disk(10, 0), 10),
        reader(512, 3, on_disk(10, 0), 11),
        reader(512, 3, on_disk(10, u64::MAX - 10), 4),
        reader(512, 3, on_disk(10, u64::MAX - 9), 4),
        reader(512, 3, hole(u64::MAX), 7),
    ]
}

pub fn cases(rt: &impl Print, list: &[u8]) -> io::Result<()> {
    println!(rt; "unsound")?;
    for reader in readers() {
        let trial = Trial { list, reader };
        trial.seek(rt, Whence::Place, 0)?;
        trial.read(rt, 10, 3)?;
        trial.data_position(rt)?;
    }
    Ok(())
}
