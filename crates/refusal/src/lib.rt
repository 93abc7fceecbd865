//! Why a call said no: one error type for all calls, with a number, values and a sentence for each refusal.
#![tactic(auto)]

ghost use Rattle.std.specs.Prelude.{◌≡◌, [], ◌∷◌};
ghost use Rattle.refusal.specs.Refusals.{number as Refusals·number, values as Refusals·values};
ghost use Rattle.refusal.specs.Refusals.{three, WordsFit};

use std::fmt;
use thiserror::Error;

/// A refusal. Its `Display` is its name and what it means, in a sentence.
#[derive(Clone, Copy, Debug, PartialEq, Eq, Error)]
pub enum Refusal {
    #[error("short boot sector: a boot sector has 512 bytes, and fewer were there.")]
    Short,
    #[error("boot mark: bytes 510 and 511 must be 55 AA in hex, and the two given stand there.")]
    Mark {
        first: u8,
        second: u8,
    },
    #[error("sectors per cluster: byte 13 must be a power of two from 1 to 128, or 244 to 255 for 2 to the power 256 - byte.")]
    PerCluster {
        byte: u8,
    },
    #[error("sector size: a sector must have 512, 1024, 2048 or 4096 bytes.")]
    SectorSize {
        size: u64,
    },
    #[error("cluster size: sectors per cluster times sector size must be 512 to 2097152 bytes.")]
    ClusterSize {
        size: u64,
    },
    #[error("MFT LCN: the MFT can't start at LCN 0.")]
    MftLcn,
    #[error("file record size: the info (given with the cluster size) must be above 0, or -10, -11 or -12.")]
    RecordInfo {
        info: i8,
        cluster: u64,
    },
    #[error("record length: a record must have 8 to 4096 bytes.")]
    RecordLength {
        len: usize,
    },
    #[error("sequence number: the offset at 4 must leave room for two bytes inside the record.")]
    SequenceOffset {
        offset: usize,
    },
    #[error("sequence count: the count at 6 must be above 0: the number itself counts.")]
    SequenceCount,
    #[error("sequence array: the number with its entries, or the sectors they stand for, reach past the record.")]
    SequenceArray {
        count: usize,
    },
    #[error("torn record: the sector given (from 0) ends in the two bytes given, not in the sequence number.")]
    Torn {
        sector: usize,
        first: u8,
        second: u8,
    },
    // from here on of a run: its values begin with the cursor of its header
    #[error("run header: a half of the header at the byte given is over 8.")]
    Nibble {
        cursor: usize,
    },
    #[error("cut run: the list ends inside the run whose header stands at the byte given.")]
    Cut {
        cursor: usize,
    },
    #[error("empty run: the run whose header stands at the byte given has no clusters.")]
    NoClusters {
        cursor: usize,
    },
    #[error("run size: the size of the run at the byte given is over 2^64 - 1.")]
    RunSize {
        cursor: usize,
    },
    #[error("run LCN: the run at the byte given leads from the previous LCN given to one below 0 or over 2^64 - 1.")]
    RunLcn {
        cursor: usize,
        previous: u64,
    },
    #[error("run place: the place of the run at the byte given is over 2^64 - 1.")]
    RunPlace {
        cursor: usize,
    },
    #[error("run end: the end of the run at the byte given is over 2^64 - 1.")]
    RunEnd {
        cursor: usize,
    },
    // of the reader, and of lookup
    #[error("seek target: the place to seek is below 0 or over 2^64 - 1.")]
    Target,
    #[error("unsound: the cluster size must be a power of two from 512 to 2097152.")]
    Unsound,
    #[error("list length: a list to look up in has 4096 bytes at most.")]
    ListLength,
}

impl Refusal {
    /// The refusal's number, 1 to 22.
    pub fn number(self) -> u64
        ensures { result ≡ Refusals·number self }
    {
        match self {
            Refusal::Short => 1,
            Refusal::Mark { .. } => 2,
            Refusal::PerCluster { .. } => 3,
            Refusal::SectorSize { .. } => 4,
            Refusal::ClusterSize { .. } => 5,
            Refusal::MftLcn => 6,
            Refusal::RecordInfo { .. } => 7,
            Refusal::RecordLength { .. } => 8,
            Refusal::SequenceOffset { .. } => 9,
            Refusal::SequenceCount => 10,
            Refusal::SequenceArray { .. } => 11,
            Refusal::Torn { .. } => 12,
            Refusal::Nibble { .. } => 13,
            Refusal::Cut { .. } => 14,
            Refusal::NoClusters { .. } => 15,
            Refusal::RunSize { .. } => 16,
            Refusal::RunLcn { .. } => 17,
            Refusal::RunPlace { .. } => 18,
            Refusal::RunEnd { .. } => 19,
            Refusal::Target => 20,
            Refusal::Unsound => 21,
            Refusal::ListLength => 22,
        }
    }

    // std has no `From` of a usize for an i128, so that three of them are converted by `as`
    /// The values that go with the number, in their order; none behind the last.
    pub fn values(self) -> [Option<i128>; 3]
        ensures order { result ≡ three (Refusals·values self) }
        ensures fits { WordsFit result }
    {
        match self {
            Refusal::Short
            | Refusal::MftLcn
            | Refusal::SequenceCount
            | Refusal::Target
            | Refusal::Unsound
            | Refusal::ListLength => [None; 3],
            Refusal::Mark { first, second } => two(first.into(), second.into()),
            Refusal::PerCluster { byte } => one(byte.into()),
            Refusal::SectorSize { size } | Refusal::ClusterSize { size } => one(size.into()),
            Refusal::RecordInfo { info, cluster } => two(info.into(), cluster.into()),
            Refusal::RecordLength { len: n }
            | Refusal::SequenceOffset { offset: n }
            | Refusal::SequenceArray { count: n }
            | Refusal::Nibble { cursor: n }
            | Refusal::Cut { cursor: n }
            | Refusal::NoClusters { cursor: n }
            | Refusal::RunSize { cursor: n }
            | Refusal::RunPlace { cursor: n }
            | Refusal::RunEnd { cursor: n } => one(n as i128),
            Refusal::Torn {
                sector,
                first,
                second,
            } => [
                Some(sector as i128),
                Some(first.into()),
                Some(second.into()),
            ],
            Refusal::RunLcn { cursor, previous } => two(cursor as i128, previous.into()),
        }
    }
}

fn one(value: i128) -> [Option<i128>; 3]
    ensures { result ≡ three (value ∷ []) }
{
    [Some(value), None, None]
}

fn two(first: i128, second: i128) -> [Option<i128>; 3]
    ensures { result ≡ three (first ∷ second ∷ []) }
{
    [Some(first), Some(second), None]
}

/// A refusal as its number and its values: `refused 12: 1, 7, 9`.
#[derive(Clone, Copy, Debug, PartialEq, Eq)]
pub struct Numbered(pub Refusal);

impl fmt::Display for Numbered {
    ghost use Rattle.std.specs.Prelude.{Some, codes, ◌++◌};
    ghost use Rattle.refusal.specs.Refusals.{told};

    ghost output = { λ x. Some (told x.0) };

    fn fmt<W: fmt::Write>(&self, f: &mut fmt::Formatter<W>) -> fmt::Result {
        let number = self.0.number();
        match self.0.values() {
            [Some(a), Some(b), Some(c)] => write!(f, "refused {number}: {a}, {b}, {c}"),
            [Some(a), Some(b), None] => write!(f, "refused {number}: {a}, {b}"),
            [Some(a), None, _] => write!(f, "refused {number}: {a}"),
            [None, _, _] => write!(f, "refused {number}"),
        }
    }
}
