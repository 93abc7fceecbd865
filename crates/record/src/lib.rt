//! Repair of a record's update sequence, where the record lies.
#![tactic(auto)]

ghost use Rattle.std.specs.Prelude.{◌≡◌, ◌+◌, ◌*◌, ◌≤◌, length};
ghost use Rattle.format.specs.Number.{unsigned};
ghost use Rattle.format.specs.Record.{repair, length_fits};
ghost use Rattle.record.specs.Shown.{outcome, sectors_from, sector_at};

use refusal::Refusal;

/// The least length of a record, in bytes.
pub const MIN_RECORD: usize = 8;

/// The greatest length of a record, in bytes.
pub const MAX_RECORD: usize = 4096;

/// Repairs a record: each sector must end in the sequence number, and gets its two bytes back from its entry in the
/// array behind the number.
///
/// Refused is, in this order: `RecordLength`, fewer than 8 or more than 4,096 bytes; `SequenceOffset`, a number that
/// isn't inside the record; `SequenceCount`, a count of 0; `SequenceArray`, a count whose entries or sectors reach past
/// the record; `Torn`, the first sector that ends in other bytes. Sectors before a torn one stay repaired; a record
/// that is refused for anything else is left as it was.
#[tactic(auto, using(format::proofs::Record::fits_bounds, format::proofs::Record::reaches_not), unfolding(format::specs::Record::repair, format::specs::Record::reaches_past, format::specs::Pick::pick))]
pub fn repair(lent: &mut [u8]) -> Result<(), Refusal>
    ensures { outcome result lent.new ≡ repair lent.old }
{
    let len = lent.len();
    if !length_fits(len) {
        return Err(Refusal::RecordLength { len });
    }
    let offset = usize::from(u16_at(lent, 4));
    if len < offset + 2 {
        return Err(Refusal::SequenceOffset { offset });
    }
    let count = usize::from(u16_at(lent, 6));
    if count == 0 {
        return Err(Refusal::SequenceCount);
    }
    if len < offset + 2 * count || len < 512 * (count - 1) {
        return Err(Refusal::SequenceArray { count });
    }
    let number = [lent[offset], lent[offset + 1]];
    mend_all(lent, offset, number, count - 1)
}

/// Whether a record may have so many bytes.
#[tactic(auto, unfolding(format::specs::Record::length_fits, format::specs::Number::between, format::specs::Pick::pick))]
fn length_fits(len: usize) -> bool
    ensures { result ≡ length_fits len }
{
    (MIN_RECORD..=MAX_RECORD).contains(&len)
}

/// Mends the ends of so many sectors, up to a torn one.
#[tactic(auto, using(crate::proofs::Sectors::sector_mended, crate::proofs::Sectors::sector_torn, crate::proofs::Sectors::sectors_over))]
fn mend_all(lent: &mut [u8], offset: usize, number: [u8; 2], sectors: usize) -> Result<(), Refusal>
    requires entries { offset + 2 + 2 * sectors ≤ length lent.old }
    requires ends { 512 * sectors ≤ length lent.old }
    ensures { outcome result lent.new ≡ sectors_from sectors offset number 0 lent.old lent.old }
{
    for sector in 0..sectors {
        mend(lent, offset, number, sector)?;
    }
    Ok(())
}

/// Mends the end of one sector.
#[tactic(auto, using(crate::proofs::Sectors::copied), unfolding(format::specs::Record::mend, format::specs::Record::ended, format::specs::Record::mismatch, format::specs::Pick::pick))]
fn mend(lent: &mut [u8], offset: usize, number: [u8; 2], sector: usize) -> Result<(), Refusal>
    requires entry { offset + 4 + 2 * sector ≤ length lent.old }
    requires end { 512 + 512 * sector ≤ length lent.old }
    ensures long { length lent.new ≡ length lent.old }
    ensures mended { outcome result lent.new ≡ sector_at offset number sector lent.old }
{
    let end = 510 + 512 * sector;
    let (first, second) = (lent[end], lent[end + 1]);
    if [first, second] != number {
        return Err(Refusal::Torn {
            sector,
            first,
            second,
        });
    }
    let entry = offset + 2 + 2 * sector;
    lent.copy_within(entry..entry + 2, end);
    Ok(())
}

/// The two bytes at a place, little-endian.
#[tactic(auto, using(format::proofs::Numbers::unsigned_two))]
fn u16_at(bytes: &[u8], at: usize) -> u16
    requires { at + 2 ≤ length bytes.now }
    ensures { result ≡ unsigned bytes.now at 2 }
{
    u16::from_le_bytes([bytes[at], bytes[at + 1]])
}
