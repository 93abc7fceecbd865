//! Spans, and their words in a store.

ghost use Rattle.std.specs.Prelude.{◌≡◌, ◌+◌, ◌≤◌, length};
ghost use Rattle.std.proofs.lemmas.List.Edits.{sets};
ghost use Rattle.non_resident.specs.Shown.{shown_span, span_words};

use data_runs::Place;

/// A stretch of the stream that lies in one piece on the disk, or in a hole.
#[derive(Clone, Copy, Debug, PartialEq, Eq)]
pub struct Span {
    pub place: Place,
    pub length: u64,
}

impl Span {
    /// Position (0 in a hole), length, kind (1 on the disk, 0 in a hole).
    fn words(self) -> [u64; 3]
        ensures { result ≡ span_words (shown_span self) }
    {
        match self.place {
            Place::Disk(position) => [position, self.length, 1],
            Place::Hole => [0, self.length, 0],
        }
    }

    /// Puts the span's three words into a store.
    pub(crate) fn put(self, store: &mut [u64], at: usize)
        requires { at + 3 ≤ length store.old }
        ensures { store.new ≡ sets store.old at (span_words (shown_span self)) }
    {
        store[at..at + 3].copy_from_slice(&self.words());
    }
}
