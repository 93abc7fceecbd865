//! The calls for C and Rust, which link them from `capi_c`: words in, values to the proved calls, words out. There is
//! no logic here beyond that.
//!
//! Each call answers a number: 0 accepted, otherwise the refusal's number (1 to 22); 255 where `out` has fewer than
//! eight words or a reader fewer than sixteen, and then nothing is changed. Accepted, the first eight words of `out`
//! are what the call says, the rest of them 0. Refused, they are the refusal's values, a negative one in two's
//! complement, and the rest of them 0. Words behind the eighth stay as they were.
//!
//! Answers, kinds of runs and what a seek counts from are numbers here, and nowhere below, since C has them so. A
//! cursor and a count of spans are u64 here and usize below: std converts between the two by `as` alone.
#![tactic(auto)]

mod answers;
mod reader;
mod stores;

ghost use Rattle.std.specs.Prelude.{◌*◌, pos, ◌+ℤ◌};
ghost use Rattle.format.specs.Number.{within, within_ℤ};
ghost use Rattle.format.specs.Boot.{boot};
ghost use Rattle.format.specs.Record.{repair};
ghost use Rattle.format.specs.Runs.{next};
ghost use Rattle.format.specs.Listed.{looked_up};
ghost use Rattle.format.specs.Calls.{opening, seeking, reading, standing};
ghost use Rattle.capi.specs.Words.{fits, both_fit, held_of, from_of};
ghost use Rattle.capi.specs.Words.{tell_word, tell_boot, tell_step, tell_where, tell_position};
ghost use Rattle.capi.specs.Words.{Tells, Mends, Keeps, Reads};

use boot_sector::Geometry;
use data_runs::Cursor;
use non_resident::Reader;
use stores::{SHORT, accept, put, refuse, tell};
use types::Lcn;

/// An LCN plus a signed delta. `out`: 1 and the sum, or 0 where it is below 0 or over 2^64 - 1. Never refused.
pub fn archthimble_lcn_plus(lcn: u64, delta: i64, out: &mut [u64]) -> u64
    ensures { Tells (tell_word (within_ℤ (pos lcn +ℤ delta))) (fits out.old) out.old result out.new }
{
    let sum = Lcn(lcn).plus(delta).map(|sum| sum.0);
    accept(out, answers::number(sum))
}

/// An LCN's byte position. `out`: 1 and the position, or 0 where it is over 2^64 - 1. Any cluster size will do; never
/// refused.
pub fn archthimble_lcn_position(lcn: u64, cluster: u64, out: &mut [u64]) -> u64
    ensures { Tells (tell_word (within (lcn * cluster))) (fits out.old) out.old result out.new }
{
    accept(out, answers::number(Lcn(lcn).position(cluster)))
}

/// What a boot sector says. `out`: sector size, cluster size, total sectors, MFT LCN, MFT mirror LCN, file record
/// size, index record info in two's complement, serial number. Refused with 1 to 7.
pub fn archthimble_geometry(sector: &[u8], out: &mut [u64]) -> u64
    ensures { Tells (tell_boot (boot sector.now)) (fits out.old) out.old result out.new }
{
    tell(out, Geometry::read(sector).map(answers::geometry))
}

/// One run of a list. `out`: 1, size, position (0 for a hole), kind (1 on the disk, 0 a hole), cursor and LCN behind
/// the run; or 0 where the list is over. Refused with 13 to 19, and with 21 for the cluster size or an `at` past the
/// list.
pub fn archthimble_next_run(list: &[u8], cluster: u64, at: u64, lcn: u64, out: &mut [u64]) -> u64
    ensures { Tells (tell_step (next cluster list.now at lcn)) (fits out.old) out.old result out.new }
{
    let cursor = Cursor {
        at: at as usize,
        lcn,
    };
    tell(out, cursor.next(list, cluster).map(answers::run))
}

/// Where an offset lies. `out`: 1 and the position on the disk; 2 for a hole; 0 where no run covers it. Refused with
/// 13 to 19, 21 for the cluster size, 22.
pub fn archthimble_lookup(list: &[u8], cluster: u64, offset: u64, out: &mut [u64]) -> u64
    ensures { Tells (tell_where (looked_up cluster list.now offset)) (fits out.old) out.old result out.new }
{
    tell(
        out,
        lookup::lookup(list, cluster, offset).map(answers::place),
    )
}

/// Repairs a record in place. `out`: nothing, eight times 0. Refused with 8 to 12: 12 leaves the sectors before the
/// torn one repaired, the others leave the record as it was.
#[tactic(auto, using(crate::proofs::Fit::out_only), unfolding(format::specs::Pick::pick))]
pub fn archthimble_repair(lent: &mut [u8], out: &mut [u64]) -> u64
    ensures { Mends (repair lent.old) lent.old out.old result lent.new out.new }
{
    let Some(out) = out.first_chunk_mut() else {
        return SHORT;
    };
    put(out, answers::repaired(record::repair(lent)))
}

/// A reader at the start of a stream of `size` bytes; what stood in its words doesn't matter. `out`: nothing, eight
/// times 0. Refused with 13 to 19, and with 21 for the cluster size; a refusal leaves the reader as it was.
#[tactic(auto, using(crate::proofs::Fit::with_reader), unfolding(format::specs::Pick::pick))]
pub fn archthimble_open(
    list: &[u8],
    cluster: u64,
    size: u64,
    reader: &mut [u64],
    out: &mut [u64],
) -> u64
    ensures { Keeps (opening cluster list.now size) reader.old out.old result reader.new out.new }
{
    let Some(words) = reader.first_chunk_mut() else {
        return SHORT;
    };
    let Some(out) = out.first_chunk_mut() else {
        return SHORT;
    };
    put(out, reader::keep(words, Reader::open(list, cluster, size)))
}

/// Seeks by an unsigned number, from the start (0), the place (1) or the data's end (any other number). `out`:
/// nothing, eight times 0. Refused with 13 to 19, 20, 21; a refusal leaves the reader as it was.
pub fn archthimble_seek(list: &[u8], reader: &mut [u64], from: u64, by: u64, out: &mut [u64]) -> u64
    ensures { Keeps (seeking list.now (held_of reader.old) (from_of from) (pos by)) reader.old out.old
        result reader.new out.new }
{
    seek(list, reader, from, by.into(), out)
}

/// Seeks by a signed number, otherwise as [`archthimble_seek`].
pub fn archthimble_seek_signed(
    list: &[u8],
    reader: &mut [u64],
    from: u64,
    by: i64,
    out: &mut [u64],
) -> u64
    ensures { Keeps (seeking list.now (held_of reader.old) (from_of from) by) reader.old out.old
        result reader.new out.new }
{
    seek(list, reader, from, by.into(), out)
}

/// Seeks by any number.
#[tactic(auto, using(crate::proofs::Fit::with_reader), unfolding(format::specs::Pick::pick))]
fn seek(list: &[u8], reader: &mut [u64], from: u64, by: i128, out: &mut [u64]) -> u64
    ensures { Keeps (seeking list.now (held_of reader.old) (from_of from) by) reader.old out.old
        result reader.new out.new }
{
    let Some(words) = reader.first_chunk_mut() else {
        return SHORT;
    };
    let Some(out) = out.first_chunk_mut() else {
        return SHORT;
    };
    let sought = reader::unpack(words).seek(list, reader::whence(from), by);
    put(out, reader::keep(words, sought))
}

/// Reads the spans of `w` bytes. `out`: span count, byte count. `store`: position (0 for a hole), length, kind (1 on
/// the disk, 0 a hole) of each span, one for each three words at most; the rest of it as it was. Refused with 13 to
/// 19, 21; a refusal leaves the reader and the store as they were.
#[tactic(auto, using(crate::proofs::Fit::with_reader), unfolding(format::specs::Pick::pick))]
pub fn archthimble_read(
    list: &[u8],
    reader: &mut [u64],
    w: u64,
    store: &mut [u64],
    out: &mut [u64],
) -> u64
    ensures { Reads (reading list.now (held_of reader.old) w store.old) reader.old store.old out.old
        result reader.new store.new out.new }
{
    let Some(words) = reader.first_chunk_mut() else {
        return SHORT;
    };
    let Some(out) = out.first_chunk_mut() else {
        return SHORT;
    };
    let reading = reader::unpack(words).read(list, w, store);
    put(out, reader::keep_reading(words, reading))
}

/// The disk position of a reader's place. `out`: 1 and the position, or 0 in a hole or without a run. Refused with
/// 21, on all but the cursor, since no list is lent.
#[tactic(auto, using(crate::proofs::Fit::with_reader), unfolding(format::specs::Pick::pick))]
pub fn archthimble_data_position(reader: &[u64], out: &mut [u64]) -> u64
    ensures { Tells (tell_position (standing (held_of reader.now))) (both_fit reader.now out.old) out.old
        result out.new }
{
    let Some(words) = reader.first_chunk() else {
        return SHORT;
    };
    let Some(out) = out.first_chunk_mut() else {
        return SHORT;
    };
    match reader::unpack(words).data_position() {
        Ok(position) => {
            *out = answers::number(position);
            0
        }
        Err(why) => refuse(out, why),
    }
}
