//! How many entries agree, kind by kind.
use crate::body;
use crate::kind::{Kind, NoKind};
use std::fmt;

/// The entries of a kind that agree and that differ, and those that differ once altered.
#[derive(Clone, Copy, Debug, Default)]
struct Tally {
    agree: u64,
    differ: u64,
    altered: u64,
}

impl Tally {
    fn note(&mut self, kind: Kind, entry: &mut [u8]) {
        if kind.agrees(entry) {
            self.agree = self.agree.saturating_add(1);
        } else {
            self.differ = self.differ.saturating_add(1);
        }
        body::alter(entry);
        if !kind.agrees(entry) {
            self.altered = self.altered.saturating_add(1);
        }
    }
}

impl fmt::Display for Tally {
    fn fmt<W: fmt::Write>(&self, f: &mut fmt::Formatter<W>) -> fmt::Result {
        let Tally {
            agree,
            differ,
            altered,
        } = *self;
        write!(
            f,
            "{agree} as the Rust, {differ} not; altered, {altered} differ"
        )
    }
}

#[derive(Clone, Copy, Debug, Default)]
pub struct Report {
    tallies: [Tally; Kind::ALL.len()],
    /// The entries of no kind.
    strangers: u64,
}

impl Report {
    /// Tries an entry, as it is and altered.
    pub fn note(&mut self, kind: u64, entry: &mut [u8]) {
        match Kind::try_from(kind) {
            // a kind's number is its place: std has no conversion of an enum but `as`
            Ok(kind) => self.tallies[kind as usize].note(kind, entry),
            Err(NoKind) => self.strangers = self.strangers.saturating_add(1),
        }
    }
}

impl fmt::Display for Report {
    fn fmt<W: fmt::Write>(&self, f: &mut fmt::Formatter<W>) -> fmt::Result {
        for (kind, tally) in Kind::ALL.iter().zip(&self.tallies) {
            writeln!(f, "{kind:<12} {tally}")?;
        }
        writeln!(f, "{} entries of no kind", self.strangers)
    }
}
