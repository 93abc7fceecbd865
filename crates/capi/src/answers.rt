//! What each call answers where it is accepted, as eight words; and the words of a refusal.

ghost use Rattle.std.specs.Prelude.{◌≡◌, ℕ, List, Ok};
ghost use Rattle.refusal.specs.Refusals as Refusals;
ghost use Rattle.boot_sector.specs.Shown as Boot-as-Shown;
ghost use Rattle.data_runs.specs.Shown as Runs-as-Shown;
ghost use Rattle.lookup.specs.Shown as Lookup-as-Shown;
ghost use Rattle.record.specs.Shown as Record-as-Shown;
ghost use Rattle.std.specs.Prelude.{IfSome};
ghost use Rattle.refusal.specs.Refusals.{FitsWord};
ghost use Rattle.capi.specs.Shown.{word_of};
ghost use Rattle.capi.specs.Words.{accepted, two, valued};
ghost use Rattle.capi.specs.Words.{tell_word, tell_boot, tell_step, tell_where, tell_repair};
ghost use Rattle.capi.specs.Shown.{shown};

use boot_sector::Geometry;
use data_runs::{Cursor, Place, Run};
use refusal::Refusal;

/// The words of an answer.
pub(crate) const OUT: usize = 8;

/// What a call answers: eight words, or a refusal.
pub(crate) type Answer = Result<[u64; OUT], Refusal>;

/// Eight times 0.
pub(crate) const NOTHING: [u64; OUT] = [0; OUT];

/// Two words, the rest 0.
pub(crate) fn two(first: u64, second: u64) -> [u64; OUT]
    ensures { result ≡ two first second }
{
    [first, second, 0, 0, 0, 0, 0, 0]
}

/// 1 and a number, or 0 without one.
pub(crate) fn number(number: Option<u64>) -> [u64; OUT]
    ensures { accepted result ≡ tell_word number }
{
    two(u64::from(number.is_some()), number.unwrap_or(0))
}

/// A value as a word, a negative one in two's complement; 0 for none.
fn word(value: Option<i128>) -> u64
    requires { IfSome value FitsWord }
    ensures { result ≡ word_of value }
{
    match value {
        Some(value) if value < 0 => (value as i64).cast_unsigned(),
        Some(value) => value as u64,
        None => 0,
    }
}

/// The values of a refusal, the rest 0.
#[tactic(auto, using(crate::proofs::Told::told_values))]
pub(crate) fn values(why: Refusal) -> [u64; OUT]
    ensures { result ≡ valued (Refusals.values why) }
{
    let [first, second, third] = why.values();
    [word(first), word(second), word(third), 0, 0, 0, 0, 0]
}

pub(crate) fn geometry(geometry: Geometry) -> [u64; OUT]
    ensures { accepted result ≡ tell_boot (Boot-as-Shown.shown (Ok geometry)) }
{
    [
        geometry.sector_size,
        geometry.cluster_size,
        geometry.total_sectors,
        geometry.mft_lcn,
        geometry.mirror_lcn,
        geometry.record_size,
        word(Some(geometry.index_info.into())),
        geometry.serial,
    ]
}

/// 1, size, position, kind, cursor and LCN; or 0 where the list is over.
pub(crate) fn run(met: Option<(Run, Cursor)>) -> [u64; OUT]
    ensures { accepted result ≡ tell_step (Runs-as-Shown.shown (Ok met)) }
{
    let Some((run, next)) = met else {
        return NOTHING;
    };
    let (position, kind) = match run.place {
        Place::Disk(position) => (position, 1),
        Place::Hole => (0, 0),
    };
    [1, run.size, position, kind, next.at as u64, next.lcn, 0, 0]
}

/// 1 and the position on the disk; 2 for a hole; 0 where it isn't covered.
pub(crate) fn place(place: Option<Place>) -> [u64; OUT]
    ensures { accepted result ≡ tell_where (Lookup-as-Shown.shown (Ok place)) }
{
    match place {
        Some(Place::Disk(position)) => two(1, position),
        Some(Place::Hole) => two(2, 0),
        None => NOTHING,
    }
}

/// Nothing of a repair that is done.
pub(crate) fn repaired(answer: Result<(), Refusal>) -> Answer
    ensures { (s : List ℕ) → shown result ≡ tell_repair (Record-as-Shown.outcome answer s) }
{
    answer?;
    Ok(NOTHING)
}
