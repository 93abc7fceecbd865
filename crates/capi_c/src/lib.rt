//! The archive for C and Rust: the calls of the library `capi` under their names in C, with its promises. They stand
//! twice, since a crate is a static library, which C links, or a library, which `replay` and `demand3` use.
//!
//! Each call answers a number: 0 accepted, otherwise the refusal's number (1 to 22); 255 where `out` has fewer than
//! eight words or a reader fewer than sixteen, and then nothing is changed. Accepted, the first eight words of `out`
//! are what the call says, the rest of them 0. Refused, they are the refusal's values, a negative one in two's
//! complement, and the rest of them 0. Words behind the eighth stay as they were.
#![tactic(auto)]

ghost use Rattle.std.specs.Prelude.{◌*◌, pos, ◌+ℤ◌};
ghost use Rattle.format.specs.Number.{within, within_ℤ};
ghost use Rattle.format.specs.Boot.{boot};
ghost use Rattle.format.specs.Record.{repair};
ghost use Rattle.format.specs.Runs.{next};
ghost use Rattle.format.specs.Listed.{looked_up};
ghost use Rattle.format.specs.Calls.{opening, seeking, reading, standing};
ghost use Rattle.capi.specs.Words.{fits, both_fit, held_of, from_of};
ghost use Rattle.capi.specs.Words.{tell_word, tell_boot, tell_step, tell_where, tell_position};
ghost use Rattle.capi.specs.Words.{Tells, Mends, Keeps, Reads};

/// An LCN plus a signed delta. `out`: 1 and the sum, or 0 where it is below 0 or over 2^64 - 1. Never refused.
#[unsafe(no_mangle)]
pub extern "C" fn archthimble_lcn_plus(lcn: u64, delta: i64, out: &mut [u64]) -> u64
    ensures { Tells (tell_word (within_ℤ (pos lcn +ℤ delta))) (fits out.old) out.old result out.new }
{
    capi::archthimble_lcn_plus(lcn, delta, out)
}

/// An LCN's byte position. `out`: 1 and the position, or 0 where it is over 2^64 - 1. Any cluster size will do; never
/// refused.
#[unsafe(no_mangle)]
pub extern "C" fn archthimble_lcn_position(lcn: u64, cluster: u64, out: &mut [u64]) -> u64
    ensures { Tells (tell_word (within (lcn * cluster))) (fits out.old) out.old result out.new }
{
    capi::archthimble_lcn_position(lcn, cluster, out)
}

/// What a boot sector says. `out`: sector size, cluster size, total sectors, MFT LCN, MFT mirror LCN, file record
/// size, index record info in two's complement, serial number. Refused with 1 to 7.
#[unsafe(no_mangle)]
pub extern "C" fn archthimble_geometry(sector: &[u8], out: &mut [u64]) -> u64
    ensures { Tells (tell_boot (boot sector.now)) (fits out.old) out.old result out.new }
{
    capi::archthimble_geometry(sector, out)
}

/// One run of a list. `out`: 1, size, position (0 for a hole), kind (1 on the disk, 0 a hole), cursor and LCN behind
/// the run; or 0 where the list is over. Refused with 13 to 19, and with 21 for the cluster size or an `at` past the
/// list.
#[unsafe(no_mangle)]
pub extern "C" fn archthimble_next_run(
    list: &[u8],
    cluster: u64,
    at: u64,
    lcn: u64,
    out: &mut [u64],
) -> u64
    ensures { Tells (tell_step (next cluster list.now at lcn)) (fits out.old) out.old result out.new }
{
    capi::archthimble_next_run(list, cluster, at, lcn, out)
}

/// Where an offset lies. `out`: 1 and the position on the disk; 2 for a hole; 0 where no run covers it. Refused with
/// 13 to 19, 21 for the cluster size, 22.
#[unsafe(no_mangle)]
pub extern "C" fn archthimble_lookup(list: &[u8], cluster: u64, offset: u64, out: &mut [u64]) -> u64
    ensures { Tells (tell_where (looked_up cluster list.now offset)) (fits out.old) out.old result out.new }
{
    capi::archthimble_lookup(list, cluster, offset, out)
}

/// Repairs a record in place. `out`: nothing, eight times 0. Refused with 8 to 12: 12 leaves the sectors before the
/// torn one repaired, the others leave the record as it was.
#[unsafe(no_mangle)]
pub extern "C" fn archthimble_repair(lent: &mut [u8], out: &mut [u64]) -> u64
    ensures { Mends (repair lent.old) lent.old out.old result lent.new out.new }
{
    capi::archthimble_repair(lent, out)
}

/// A reader at the start of a stream of `size` bytes; what stood in its words doesn't matter. `out`: nothing, eight
/// times 0. Refused with 13 to 19, and with 21 for the cluster size; a refusal leaves the reader as it was.
#[unsafe(no_mangle)]
pub extern "C" fn archthimble_open(
    list: &[u8],
    cluster: u64,
    size: u64,
    reader: &mut [u64],
    out: &mut [u64],
) -> u64
    ensures { Keeps (opening cluster list.now size) reader.old out.old result reader.new out.new }
{
    capi::archthimble_open(list, cluster, size, reader, out)
}

/// Seeks by an unsigned number, from the start (0), the place (1) or the data's end (any other number). `out`:
/// nothing, eight times 0. Refused with 13 to 19, 20, 21; a refusal leaves the reader as it was.
#[unsafe(no_mangle)]
pub extern "C" fn archthimble_seek(
    list: &[u8],
    reader: &mut [u64],
    from: u64,
    by: u64,
    out: &mut [u64],
) -> u64
    ensures { Keeps (seeking list.now (held_of reader.old) (from_of from) (pos by)) reader.old out.old
        result reader.new out.new }
{
    capi::archthimble_seek(list, reader, from, by, out)
}

/// Seeks by a signed number, otherwise as [`archthimble_seek`].
#[unsafe(no_mangle)]
pub extern "C" fn archthimble_seek_signed(
    list: &[u8],
    reader: &mut [u64],
    from: u64,
    by: i64,
    out: &mut [u64],
) -> u64
    ensures { Keeps (seeking list.now (held_of reader.old) (from_of from) by) reader.old out.old
        result reader.new out.new }
{
    capi::archthimble_seek_signed(list, reader, from, by, out)
}

/// Reads the spans of `w` bytes. `out`: span count, byte count. `store`: position (0 for a hole), length, kind (1 on
/// the disk, 0 a hole) of each span, one for each three words at most; the rest of it as it was. Refused with 13 to
/// 19, 21; a refusal leaves the reader and the store as they were.
#[unsafe(no_mangle)]
pub extern "C" fn archthimble_read(
    list: &[u8],
    reader: &mut [u64],
    w: u64,
    store: &mut [u64],
    out: &mut [u64],
) -> u64
    ensures { Reads (reading list.now (held_of reader.old) w store.old) reader.old store.old out.old
        result reader.new store.new out.new }
{
    capi::archthimble_read(list, reader, w, store, out)
}

/// The disk position of a reader's place. `out`: 1 and the position, or 0 in a hole or without a run. Refused with
/// 21, on all but the cursor, since no list is lent.
#[unsafe(no_mangle)]
pub extern "C" fn archthimble_data_position(reader: &[u64], out: &mut [u64]) -> u64
    ensures { Tells (tell_position (standing (held_of reader.now))) (both_fit reader.now out.old) out.old
        result out.new }
{
    capi::archthimble_data_position(reader, out)
}
