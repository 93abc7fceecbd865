//! `archthimble runs`: the runs of a list as a table, and a bar that shows where the stream lies on the disk and where
//! in holes.
use crate::table::{Clusters, Spot, explain};
use crate::words;
use crate::words::{ROOM, Word};
use data_runs::{Cursor, DataRuns, Place, Run};
use std::env::Env;
use std::{fmt, io};

pub fn typed(rt: &(impl Print + Env), list: Word, cluster: Word) -> io::Result<()> {
    let mut room = [0; ROOM];
    let list = words::list(rt, list, &mut room)?;
    let cluster = words::number(rt, cluster)?;
    match list.zip(cluster) {
        Some((list, cluster)) => show(rt, list, cluster),
        None => Ok(()),
    }
}

fn show(rt: &impl Print, list: &[u8], cluster: u64) -> io::Result<()> {
    println!(rt; "            header at                bytes             clusters  place")?;
    let covered = table(rt, list, cluster)?;
    println!(rt;
        "{}",
        Bar {
            list,
            cluster,
            from: 0,
            to: covered
        }
    )
}

/// The runs, a line for each, and how many bytes they cover. Where these don't fit 64 bits, the table ends.
fn table(rt: &impl Print, list: &[u8], cluster: u64) -> io::Result<u64> {
    let runs = match DataRuns::new(list, cluster) {
        Ok(runs) => runs,
        Err(refusal) => {
            explain(rt, refusal)?;
            return Ok(0);
        }
    };
    let mut covered = 0u64;
    let mut cursor = Cursor::START;
    for met in runs {
        let (run, next) = match met {
            Ok(met) => met,
            Err(refusal) => {
                explain(rt, refusal)?;
                break;
            }
        };
        line(rt, cursor.at, run, cluster)?;
        let Some(sum) = covered.checked_add(run.size) else {
            println!(rt;
                "With this run they cover more than 2^64 - 1 bytes: it ends here, and the bar before it."
            )?;
            break;
        };
        covered = sum;
        cursor = next;
    }
    Ok(covered)
}

/// Every size of a run is a whole number of clusters.
fn line(rt: &impl Print, at: usize, run: Run, cluster: u64) -> io::Result<()> {
    let Run { size, place } = run;
    let clusters = size.checked_div(cluster).unwrap_or(0);
    println!(rt;
        "{at:>21}{size:>21}{clusters:>21}  {}",
        Spot { place, cluster }
    )
}

/// A stretch of the stream, in sixty marks from left to right: # lies on the disk, . in a hole.
#[derive(Clone, Copy, Debug)]
pub struct Bar<'a> {
    pub list: &'a [u8],
    pub cluster: u64,
    pub from: u64,
    pub to: u64,
}

impl Bar<'_> {
    fn mark(self, offset: u64) -> char {
        match lookup::lookup(self.list, self.cluster, offset) {
            Ok(Some(Place::Disk(_))) => '#',
            Ok(Some(Place::Hole)) => '.',
            Ok(None) | Err(_) => ' ',
        }
    }
}

impl fmt::Display for Bar<'_> {
    fn fmt<W: fmt::Write>(&self, f: &mut fmt::Formatter<W>) -> fmt::Result {
        let Bar {
            cluster,
            from,
            to,
            ..
        } = *self;
        if to <= from {
            return write!(f, "0 bytes");
        }
        let bytes = to - from;
        write!(f, "[")?;
        for k in 0..60u64 {
            // below `bytes`, so that it fits: std has no `From` of a u128 for a u64
            let offset = from + (u128::from(bytes) * u128::from(k) / 60) as u64;
            write!(f, "{}", self.mark(offset))?;
        }
        write!(
            f,
            "] {}; # on the disk, . in a hole",
            Clusters { bytes, cluster }
        )
    }
}
