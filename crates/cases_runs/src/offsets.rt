//! Offsets looked up in run lists.
use data_runs::Place;
use refusal::Numbered;
use std::io;

/// Two runs, a hole and a run.
const LIST: &[u8] = b"\x11\x02\x0a\x11\x01\xfe\x01\x03\x11\x02\x05\x00";

/// A list whose second run is refused.
const BROKEN: &[u8] = b"\x11\x01\x0a\x09";

/// The longest list that is looked at, and one that is too long.
const LONGEST: &[u8] = &[0; 4096];

const LONGER: &[u8] = &[0; 4097];

/// Lists, each with a cluster size and an offset.
const CASES: [(&[u8], u64, u64); 13] = [
    (LIST, 512, 0),
    (LIST, 512, 1023),
    (LIST, 512, 1024),
    (LIST, 512, 1536),
    (LIST, 512, 3072),
    (LIST, 512, 4095),
    (LIST, 512, 4096),
    (LIST, 511, 0),
    (BROKEN, 512, 511),
    (BROKEN, 512, 512),
    (LONGEST, 512, 0),
    (LONGER, 512, 0),
    (LONGER, 511, 0),
];

pub fn cases(rt: &impl Print) -> io::Result<()> {
    for (list, cluster, offset) in CASES {
        print!(rt; "offset {offset}: ")?;
        match lookup::lookup(list, cluster, offset) {
            Ok(Some(Place::Disk(byte))) => println!(rt; "byte {byte}")?,
            Ok(Some(Place::Hole)) => println!(rt; "hole")?,
            Ok(None) => println!(rt; "not covered")?,
            Err(refusal) => println!(rt; "{}", Numbered(refusal))?,
        }
    }
    Ok(())
}
