//! Where one offset of a run list lies, worked out from the list alone.
#![tactic(auto)]

ghost use Rattle.std.specs.Prelude.{◌≡◌};
ghost use Rattle.format.specs.Listed.{lookup, listed, list_fits, run_list, looked_up};
ghost use Rattle.lookup.specs.Shown.{shown};

use data_runs::{Cursor, Place};
use refusal::Refusal;
use types::ClusterSize;

/// The longest list that is looked up in, in bytes.
pub const MAX_LIST: usize = 4096;

/// Where an offset of the stream, in bytes, lies: on the disk, in a hole, or nowhere, since the list doesn't cover it.
///
/// Refused is, in this order: `Unsound`, a cluster size that isn't a power of two from 512 to 2,097,152;
/// `ListLength`, a list of more than 4,096 bytes; what a run that is met before the offset is refused with (13 to
/// 19).
#[tactic(auto, unfolding(format::specs::Listed::looked_up, format::specs::Pick::pick))]
pub fn lookup(list: &[u8], cluster: u64, offset: u64) -> Result<Option<Place>, Refusal>
    ensures { shown result ≡ looked_up cluster list.now offset }
{
    let cluster = ClusterSize::new(cluster).ok_or(Refusal::Unsound)?;
    if !list_fits(list.len()) {
        return Err(Refusal::ListLength);
    }
    from(list, cluster, Cursor::START, offset)
}

/// Whether a list of so many bytes is looked up in.
#[tactic(auto, unfolding(format::specs::Listed::list_fits))]
fn list_fits(len: usize) -> bool
    ensures { result ≡ list_fits len }
{
    len <= MAX_LIST
}

/// The same from a cursor on: the first run, or the rest of the list with the run's size taken off. It calls itself
/// and is no loop, as the rule is said; a list of 4,096 bytes is at most 2,049 calls deep.
#[tactic(auto, using(crate::proofs::Rule::lookup_rule, crate::proofs::Rule::inside_run), unfolding(format::specs::Pick::pick))]
fn from(
    list: &[u8],
    cluster: ClusterSize,
    cursor: Cursor,
    offset: u64,
) -> Result<Option<Place>, Refusal>
    ensures { shown result ≡ lookup (listed (run_list cluster list.now) cursor.at cursor.lcn) offset }
{
    let Some((run, next)) = cursor.decode(list, cluster.bytes())? else {
        return Ok(None);
    };
    if offset >= run.size {
        return from(list, cluster, next, offset - run.size);
    }
    // inside the run, which ends at 2^64 - 1 or before, so there is a place
    Ok(run.place.further(offset))
}
