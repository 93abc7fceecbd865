//! Refusals, and sizes and places in bytes and in clusters.
use data_runs::Place;
use refusal::{Numbered, Refusal};
use std::{fmt, io};

/// Says a refusal by its number and values, and what they mean.
pub fn explain(rt: &impl Print, refusal: Refusal) -> io::Result<()> {
    println!(rt; "{}\n{refusal}", Numbered(refusal))
}

/// So many bytes as clusters and the bytes over them. No cluster size that was accepted is 0.
#[derive(Clone, Copy, Debug)]
pub struct Clusters {
    pub bytes: u64,
    pub cluster: u64,
}

impl fmt::Display for Clusters {
    fn fmt<W: fmt::Write>(&self, f: &mut fmt::Formatter<W>) -> fmt::Result {
        let Clusters { bytes, cluster } = *self;
        if cluster == 0 {
            return Ok(());
        }
        write!(
            f,
            "{bytes} bytes = {} x {cluster} + {}",
            bytes / cluster,
            bytes % cluster
        )
    }
}

/// A hole, or a byte of the disk and how far in which cluster it lies.
#[derive(Clone, Copy, Debug)]
pub struct Spot {
    pub place: Place,
    pub cluster: u64,
}

impl fmt::Display for Spot {
    fn fmt<W: fmt::Write>(&self, f: &mut fmt::Formatter<W>) -> fmt::Result {
        let cluster = self.cluster;
        match self.place {
            Place::Hole => write!(f, "hole"),
            Place::Disk(_) if cluster == 0 => Ok(()),
            Place::Disk(byte) => write!(
                f,
                "byte {byte} = LCN {} + {}",
                byte / cluster,
                byte % cluster
            ),
        }
    }
}
