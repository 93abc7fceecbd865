//! Small disks' parts to try the programs on, each as a definition lists it.
#![tactic(auto)]

ghost use Rattle.std.specs.Prelude.{◌≡◌, ◌<◌, length, map, All};
ghost use Rattle.format.specs.Sample.{boot_sample, changed};
ghost use Rattle.format.specs.RecordCases.{record_sample};
ghost use Rattle.samples.specs.Places.{change_of};

/// A boot sector: 512-byte sectors, 8 to a cluster, MFT at LCN 4, records of 1,024 bytes.
#[tactic(auto, unfolding(format::specs::Sample::boot_sample))]
pub fn boot() -> [u8; 512]
    ensures { result ≡ boot_sample }
{
    let mut sector = [0; 512];
    put_all(
        &mut sector,
        &[
            // sector size, sectors per cluster
            (12, 2),
            (13, 8),
            // total sectors 204,799
            (40, 0xff),
            (41, 0x1f),
            (42, 0x03),
            // MFT at 4, its mirror at 12,799
            (48, 4),
            (56, 0xff),
            (57, 0x31),
            // file record info -10, index record info 1
            (64, 0xf6),
            (68, 1),
            // serial
            (72, 0xef),
            (73, 0xcd),
            (74, 0xab),
            (75, 0x12),
            (510, 0x55),
            (511, 0xaa),
        ],
    );
    sector
}

/// A file record of two sectors, not yet repaired: the sequence number 07 00 at 48, entries A1 A2 and B1 B2.
#[tactic(auto, unfolding(format::specs::RecordCases::record_sample))]
pub fn record() -> [u8; 1024]
    ensures { result ≡ record_sample }
{
    let mut sectors = [0; 1024];
    put_all(
        &mut sectors,
        &[
            (0, b'F'),
            (1, b'I'),
            (2, b'L'),
            (3, b'E'),
            (4, 48),
            (6, 3),
            (48, 7),
            (50, 0xa1),
            (51, 0xa2),
            (52, 0xb1),
            (53, 0xb2),
            (510, 7),
            (1022, 7),
        ],
    );
    sectors
}

/// Puts each byte to its place.
#[tactic(auto, unfolding(format::specs::Sample::changed))]
fn put_all(bytes: &mut [u8], puts: &[(usize, u8)])
    requires { All (λ put. put.0 < length bytes.old) puts.now }
    ensures { bytes.new ≡ changed bytes.old (map change_of puts.now) }
{
    for &(place, byte) in puts {
        bytes[place] = byte;
    }
}
