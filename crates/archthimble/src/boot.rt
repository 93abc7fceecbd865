//! `archthimble boot`: a boot sector's geometry as a table, or why it is refused.
use crate::files;
use crate::table::{Clusters, explain};
use crate::words::{ROOM, Word};
use boot_sector::Geometry;
use std::env::Env;
use std::fs::Files;
use std::io;
use std::io::Eprint;
use types::Lcn;

pub fn sample(rt: &impl Print) -> io::Result<()> {
    println!(rt; "A boot sector that is built in:\n")?;
    show(rt, &samples::boot())
}

pub fn file(rt: &(impl Print + Eprint + Env + Files), name: Word) -> io::Result<()> {
    let mut room = [0; ROOM];
    let mut sector = [0; Geometry::LENGTH];
    match files::front(rt, name.read(rt, &mut room), &mut sector) {
        Ok(sector) => show(rt, sector),
        Err(error) => files::tell(rt, error),
    }
}

fn show(rt: &impl Print, sector: &[u8]) -> io::Result<()> {
    match Geometry::read(sector) {
        Ok(geometry) => table(rt, geometry),
        Err(refusal) => explain(rt, refusal),
    }
}

fn table(rt: &impl Print, geometry: Geometry) -> io::Result<()> {
    let cluster = geometry.cluster_size;
    println!(rt; "sector size     {:>21} bytes", geometry.sector_size)?;
    println!(rt; "cluster size    {cluster:>21} bytes")?;
    let sectors = geometry.total_sectors;
    print!(rt; "total sectors   {sectors:>21} sectors, ")?;
    match types::times(sectors, geometry.sector_size) {
        Some(bytes) => println!(rt; "{}", Clusters { bytes, cluster })?,
        None => println!(rt; "past 2^64 - 1 bytes")?,
    }
    lcn(rt, "MFT", geometry.mft_lcn, cluster)?;
    lcn(rt, "MFT mirror", geometry.mirror_lcn, cluster)?;
    println!(rt; "file record size{:>21} bytes", geometry.record_size)?;
    println!(rt;
        "index record info    {} (as it stands: clusters, or minus an exponent of bytes)",
        geometry.index_info
    )?;
    println!(rt; "serial number        {:016x} (hex)", geometry.serial)
}

/// An LCN, and where its first byte lies.
fn lcn(rt: &impl Print, name: &str, lcn: u64, cluster: u64) -> io::Result<()> {
    print!(rt; "{name:<16}{lcn:>21} LCN, byte ")?;
    match Lcn(lcn).position(cluster) {
        Some(byte) => println!(rt; "{byte}"),
        None => println!(rt; "past 2^64 - 1"),
    }
}
