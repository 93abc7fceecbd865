//! The kinds of entries.
use crate::body::Body;
use crate::{history, single};
use std::fmt;

/// What an entry holds an answer of.
#[derive(Clone, Copy, Debug, PartialEq, Eq)]
pub enum Kind {
    BootSector,
    Record,
    SingleRun,
    Lookup,
    History,
}

impl Kind {
    pub const ALL: [Kind; 5] = [
        Kind::BootSector,
        Kind::Record,
        Kind::SingleRun,
        Kind::Lookup,
        Kind::History,
    ];

    /// Whether the library answers what the entry says.
    pub fn agrees(self, entry: &[u8]) -> bool {
        let mut body = Body::new(entry);
        let found = match self {
            Kind::BootSector => single::boot_sector(&mut body),
            Kind::Record => single::record(&mut body),
            Kind::SingleRun => single::run(&mut body),
            Kind::Lookup => single::lookup(&mut body),
            Kind::History => history::calls(&mut body),
        };
        found.is_some() && body.is_over()
    }
}

/// The number of an entry that is of no kind.
#[derive(Clone, Copy, Debug, PartialEq, Eq)]
pub struct NoKind;

impl TryFrom<u64> for Kind {
    type Error = NoKind;

    fn try_from(number: u64) -> Result<Kind, NoKind> {
        match number {
            1 => Ok(Kind::BootSector),
            2 => Ok(Kind::Record),
            3 => Ok(Kind::SingleRun),
            4 => Ok(Kind::Lookup),
            5 => Ok(Kind::History),
            _ => Err(NoKind),
        }
    }
}

impl fmt::Display for Kind {
    fn fmt<W: fmt::Write>(&self, f: &mut fmt::Formatter<W>) -> fmt::Result {
        f.pad(match self {
            Kind::BootSector => "boot sectors",
            Kind::Record => "records",
            Kind::SingleRun => "single runs",
            Kind::Lookup => "lookups",
            Kind::History => "histories",
        })
    }
}
