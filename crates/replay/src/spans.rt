//! The spans of a read as a buffer shows them: neighbouring holes are one.
use crate::body::Body;

/// A span as a store has it: its position, its length, and 0 for a hole.
type Span = [u64; 3];

fn is_hole(span: &Span) -> bool {
    matches!(span, [_, _, 0])
}

fn length(spans: &[Span]) -> u64 {
    spans
        .iter()
        .fold(0u64, |sum, [_, length, _]| sum.wrapping_add(*length))
}

/// A span on disk, or the hole that neighbouring ones are; a hole of no bytes is none.
fn joined(spans: &[Span]) -> Option<Span> {
    match (spans, length(spans)) {
        ([span], _) if !is_hole(span) => Some(*span),
        (_, 0) => None,
        (_, length) => Some([0, length, 0]),
    }
}

/// Goes past the spans, where those in the store are they and add up to the bytes that the read counted.
pub fn spans(body: &mut Body<'_>, store: &[u64], count: u64, bytes: u64) -> Option<()> {
    let (spans, _) = store.as_chunks();
    let spans = spans.get(..usize::try_from(count).ok()?)?;
    let shown = spans
        .chunk_by(|one, next| is_hole(one) && is_hole(next))
        .filter_map(joined);
    let mut left = body.word()?;
    for span in shown {
        left = left.checked_sub(1)?;
        body.expect(&span)?;
    }
    (left == 0 && length(spans) == bytes).then_some(())
}
