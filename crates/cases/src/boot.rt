//! The boot sector's cases: a sample with some bytes changed, read, and what came of it.
use crate::{Changes, change};
use boot_sector::Geometry;
use refusal::Numbered;
use std::fmt::Display;
use std::io;

/// A sector that is read, and what it is called.
fn read(rt: &impl Print, name: impl Display + Drop, sector: &[u8]) -> io::Result<()> {
    print!(rt; "{name}: ")?;
    match Geometry::read(sector) {
        Ok(geometry) => {
            let Geometry {
                sector_size,
                cluster_size,
                total_sectors,
                mft_lcn,
                mirror_lcn,
                record_size,
                index_info,
                serial,
            } = geometry;
            print!(rt; "sector {sector_size}, cluster {cluster_size}, sectors {total_sectors}, ")?;
            print!(rt; "MFT {mft_lcn}, mirror {mirror_lcn}, record {record_size}, ")?;
            println!(rt; "index info {index_info}, serial {serial}")
        }
        Err(refusal) => println!(rt; "{}", Numbered(refusal)),
    }
}

/// The sample with some bytes changed.
fn case(rt: &impl Print, name: impl Display + Drop, changes: Changes<'_>) -> io::Result<()> {
    let mut sector = samples::boot();
    change(&mut sector, changes);
    read(rt, name, &sector)
}

fn lengths(rt: &impl Print) -> io::Result<()> {
    let mut room = [0xff; 513];
    room[..512].copy_from_slice(&samples::boot());
    for length in [511, 0, 512, 513] {
        let name = format_args!("boot sector of {length} bytes");
        read(rt, name, &room[..length])?;
    }
    Ok(())
}

/// The two bytes at 510.
const MARKS: [[u8; 2]; 6] = [
    [0x55, 0xaa],
    [0x54, 0xaa],
    [0x56, 0xaa],
    [0x55, 0xa9],
    [0x55, 0xab],
    [0xaa, 0x55],
];

fn marks(rt: &impl Print) -> io::Result<()> {
    for &[first, second] in &MARKS {
        let name = format_args!("bytes at 510 {first:02X} {second:02X}");
        case(rt, name, &[(510, first), (511, second)])?;
    }
    Ok(())
}

const SECTORS_PER_CLUSTER: [u8; 15] = [
    0, 1, 2, 3, 4, 64, 127, 128, 129, 130, 243, 244, 245, 254, 255,
];

/// Sector sizes, each list with the number of sectors per cluster that goes with it.
const SECTOR_SIZES: [(&str, u8, &[u16]); 6] = [
    (
        "sector size",
        8,
        &[256, 511, 512, 513, 1024, 2048, 3072, 4095, 4096, 4097, 8192],
    ),
    ("1 sector per cluster of", 1, &[512]),
    ("sectors per cluster 244 of", 244, &[512, 1024, 4096]),
    ("sectors per cluster 245 of", 245, &[1024, 2048]),
    ("sectors per cluster 246 of", 246, &[2048, 4096]),
    ("sectors per cluster 247 of", 247, &[4096]),
];

fn clusters(rt: &impl Print) -> io::Result<()> {
    for sectors in SECTORS_PER_CLUSTER {
        let name = format_args!("sectors per cluster {sectors}");
        case(rt, name, &[(13, sectors)])?;
    }
    Ok(())
}

fn sector_sizes(rt: &impl Print) -> io::Result<()> {
    for (name, per_cluster, sizes) in SECTOR_SIZES {
        sized(rt, name, per_cluster, sizes)?;
    }
    Ok(())
}

/// A case for each sector size, with so many sectors per cluster.
fn sized(rt: &impl Print, name: &str, per_cluster: u8, sizes: &[u16]) -> io::Result<()> {
    for size in sizes {
        let [low, high] = size.to_le_bytes();
        let changes = [(13, per_cluster), (11, low), (12, high)];
        case(rt, format_args!("{name} {size}"), &changes)?;
    }
    Ok(())
}

/// A case for each value of a signed byte.
fn signed(rt: &impl Print, name: &str, at: usize, values: &[i8]) -> io::Result<()> {
    for value in values {
        let changes = [(at, value.cast_unsigned())];
        case(rt, format_args!("{name} {value}"), &changes)?;
    }
    Ok(())
}

const RECORD_INFOS: [i8; 11] = [0, 1, 2, 127, -128, -13, -12, -11, -10, -9, -1];

fn records(rt: &impl Print) -> io::Result<()> {
    case(rt, "MFT LCN 0", &[(48, 0), (49, 0)])?;
    case(rt, "MFT LCN 1", &[(48, 1), (49, 0)])?;
    case(rt, "MFT LCN 2 to the 56", &[(48, 0), (55, 1)])?;
    signed(rt, "record info", 64, &RECORD_INFOS)?;
    let large = "record info 127 with clusters of 2 MiB";
    case(rt, large, &[(13, 244), (64, 127)])?;
    signed(rt, "index info", 68, &[0, 127, -128, -1])
}

/// Of two refusals the first in order is given.
const ORDER: [(&str, Changes<'_>); 5] = [
    ("bytes at 510 and sectors per cluster", &[(511, 0), (13, 3)]),
    ("sectors per cluster and sector size", &[(13, 3), (11, 1)]),
    ("sector size and cluster size", &[(13, 244), (12, 32)]),
    ("cluster size and MFT LCN", &[(13, 244), (12, 4), (48, 0)]),
    ("MFT LCN and record info", &[(48, 0), (64, 0)]),
];

pub fn cases(rt: &impl Print) -> io::Result<()> {
    lengths(rt)?;
    marks(rt)?;
    clusters(rt)?;
    sector_sizes(rt)?;
    records(rt)?;
    for (name, changes) in ORDER {
        case(rt, name, changes)?;
    }
    Ok(())
}
