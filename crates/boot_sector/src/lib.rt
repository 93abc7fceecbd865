//! The geometry of a disk, read from its boot sector.
#![tactic(auto)]

ghost use Rattle.std.specs.Prelude.{◌≡◌, ◌≤◌, IfSome};
ghost use Rattle.format.specs.Boot.{boot, clustered, record_size_of, sectors_of};
ghost use Rattle.boot_sector.specs.Shown.{shown};

use refusal::Refusal;

/// What a boot sector says of its disk.
#[derive(Clone, Copy, Debug, PartialEq, Eq)]
pub struct Geometry {
    /// Bytes in a sector: 512, 1024, 2048 or 4096.
    pub sector_size: u64,
    /// Bytes in a cluster: a power of two from 512 to 2,097,152.
    pub cluster_size: u64,
    /// Sectors on the disk.
    pub total_sectors: u64,
    /// The LCN at which the MFT starts, never 0.
    pub mft_lcn: u64,
    /// The LCN at which the MFT's mirror starts.
    pub mirror_lcn: u64,
    /// Bytes in a file record.
    pub record_size: u64,
    /// What the sector says of the size of an index record, as it stands and not judged.
    pub index_info: i8,
    /// The volume's serial number.
    pub serial: u64,
}

impl Geometry {
    /// Bytes in a boot sector.
    pub const LENGTH: usize = 512;

    /// The least sector size, in bytes.
    pub const MIN_SECTOR_SIZE: u64 = 512;

    /// The greatest sector size, in bytes.
    pub const MAX_SECTOR_SIZE: u64 = 4096;

    /// The least cluster size, in bytes.
    pub const MIN_CLUSTER_SIZE: u64 = 512;

    /// The greatest cluster size, in bytes.
    pub const MAX_CLUSTER_SIZE: u64 = 2_097_152;

    /// The most sectors per cluster that stand as they are.
    pub const MAX_PLAIN_SECTORS: u64 = 128;

    /// The greatest exponent that stands for sectors per cluster: 2 to the power 12 of them.
    pub const MAX_SECTORS_EXPONENT: u64 = 12;

    /// The least exponent that stands for a file record's size: 2 to the power 10 bytes.
    pub const MIN_RECORD_EXPONENT: u64 = 10;

    /// The greatest exponent that stands for a file record's size: 2 to the power 12 bytes.
    pub const MAX_RECORD_EXPONENT: u64 = 12;

    /// Reads a boot sector; bytes past the first 512 are ignored.
    ///
    /// Refused is, in this order: `Short`, fewer than 512 bytes; `Mark`, bytes 510 and 511 that aren't 55 AA in hex;
    /// `PerCluster`, a byte 13 that stands for no sectors per cluster; `SectorSize`, a sector that isn't a power of two
    /// from 512 to 4,096 bytes; `ClusterSize`, a cluster of fewer than 512 or more than 2,097,152 bytes; `MftLcn`, an
    /// MFT at LCN 0; `RecordInfo`, a byte 64 that stands for no file record size.
    #[tactic(auto, using(crate::proofs::First::boot_first), unfolding(format::specs::Boot::boot, format::specs::Pick::pick))]
    pub fn read(sector: &[u8]) -> Result<Geometry, Refusal>
        ensures { shown result ≡ boot sector.now }
    {
        let sector = sector.first_chunk().ok_or(Refusal::Short)?;
        Self::from_sector(sector)
    }

    /// What a whole boot sector says.
    #[tactic(auto, using(crate::proofs::Limits::small_product), unfolding(format::specs::Boot::boot, format::specs::Boot::marked, format::specs::Pick::pick))]
    fn from_sector(sector: &[u8; Self::LENGTH]) -> Result<Geometry, Refusal>
        ensures { shown result ≡ boot sector.now }
    {
        let (first, second) = (sector[510], sector[511]);
        if [first, second] != [0x55, 0xaa] {
            return Err(Refusal::Mark { first, second });
        }
        let byte = sector[13];
        let sectors = Self::sectors_per_cluster(byte).ok_or(Refusal::PerCluster { byte })?;
        let size = types::number_at(sector, 11, 2);
        if !types::power_between(Self::MIN_SECTOR_SIZE, Self::MAX_SECTOR_SIZE, size) {
            return Err(Refusal::SectorSize { size });
        }
        let cluster = sectors * size;
        if !types::in_range(Self::MIN_CLUSTER_SIZE, Self::MAX_CLUSTER_SIZE, cluster) {
            return Err(Refusal::ClusterSize { size: cluster });
        }
        Self::with_cluster(sector, cluster)
    }

    /// Sectors per cluster: a power of two from 1 to 128 as it stands, or 2 to the power 256 - byte from 244 on.
    #[tactic(auto, using(crate::proofs::Limits::small_power), unfolding(format::specs::Boot::sectors_of, format::specs::Number::between, format::specs::Pick::pick))]
    fn sectors_per_cluster(byte: u8) -> Option<u64>
        ensures sectors { result ≡ sectors_of byte }
        ensures bounded { IfSome result (λ n. n ≤ 4096) }
    {
        let number = u64::from(byte);
        if (1..=Self::MAX_PLAIN_SECTORS).contains(&number) {
            return types::power_of_two(number).then_some(number);
        }
        let exponent = 256 - number;
        if exponent <= Self::MAX_SECTORS_EXPONENT {
            return Some(1 << exponent);
        }
        None
    }

    /// What a sector says once its cluster size in bytes is known.
    #[tactic(auto, unfolding(format::specs::Boot::clustered, format::specs::Number::twos, format::specs::Pick::pick))]
    fn with_cluster(sector: &[u8; Self::LENGTH], cluster: u64) -> Result<Geometry, Refusal>
        ensures { shown result ≡ clustered sector.now cluster }
    {
        let mft_lcn = types::number_at(sector, 48, 8);
        if mft_lcn == 0 {
            return Err(Refusal::MftLcn);
        }
        let info = sector[64].cast_signed();
        let record_size = Self::record_size(info, cluster).ok_or(Refusal::RecordInfo {
            info,
            cluster,
        })?;
        Ok(Geometry {
            sector_size: types::number_at(sector, 11, 2),
            cluster_size: cluster,
            total_sectors: types::number_at(sector, 40, 8),
            mft_lcn,
            mirror_lcn: types::number_at(sector, 56, 8),
            record_size,
            index_info: sector[68].cast_signed(),
            serial: types::number_at(sector, 72, 8),
        })
    }

    /// Bytes in a file record: so many clusters where the info is above 0; 2 to the power 10, 11, 12 at -10, -11, -12.
    #[tactic(auto, unfolding(format::specs::Boot::record_size_of, format::specs::Number::between, format::specs::Number::within, format::specs::Pick::pick))]
    fn record_size(info: i8, cluster: u64) -> Option<u64>
        ensures { result ≡ record_size_of info cluster }
    {
        let number = u64::from(info.unsigned_abs());
        if info > 0 {
            return cluster.checked_mul(number);
        }
        if (Self::MIN_RECORD_EXPONENT..=Self::MAX_RECORD_EXPONENT).contains(&number) {
            return Some(1 << number);
        }
        None
    }
}
