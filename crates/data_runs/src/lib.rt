//! Run lists: one run of a list at a time, with its refusals in their order.
#![tactic(auto)]

ghost use Rattle.std.specs.Prelude.{◌≡◌, true, ◌^◌, ◌+◌, ◌<◌, ◌≤◌};
ghost use Rattle.std.specs.Prelude.{◌++◌, length, take, drop, replicate, option_map, IfOk, IfSome};
ghost use Rattle.format.specs.Number.{little};
ghost use Rattle.format.specs.Runs.{Inside, step, next, is_hole, ends};
ghost use Rattle.std.specs.Result.{result_map_both};
ghost use Rattle.std.specs.Iterator.{YieldsFirstBy, item_count};
ghost use Rattle.data_runs.specs.Shown.{shown_place, runs_left, runs_of, step_of, further_on, inside, shown};

use refusal::Refusal;
use types::{ClusterSize, Lcn};

/// Where a run lies: on the disk from a byte on, or nowhere, in a hole. It is no `Option`, since a hole is a place in
/// the stream as well; where there is none at all, as behind a list's runs, an `Option` of it says so.
#[derive(Clone, Copy, Debug, PartialEq, Eq)]
pub enum Place {
    Disk(u64),
    Hole,
}

/// A size in bytes, with either a disk place or a hole inside it.
#[derive(Clone, Copy, Debug, PartialEq, Eq)]
pub struct Run {
    pub size: u64,
    pub place: Place,
}

/// Where the next run's header stands in the list, and the LCN of the run before.
#[derive(Clone, Copy, Debug, PartialEq, Eq)]
pub struct Cursor {
    pub at: usize,
    pub lcn: u64,
}

// List and cluster size are two parameters in every call here and above: a struct of a slice and a sound cluster size,
// passed by value, is a form that the borrow checker has no rule for.
/// The runs of a list from its start, each with the cursor behind it. It is over after the last run, and after a
/// refusal.
#[derive(Clone, Debug, Drop)]
pub struct DataRuns<'a> {
    list: &'a [u8],
    cluster: u64,
    cursor: Option<Cursor>,
}

impl<'a> DataRuns<'a> {
    /// The runs of a list; refused with `Unsound` where the cluster size isn't a power of two from 512 to 2,097,152.
    #[tactic(auto, unfolding(format::specs::Pick::pick))]
    pub fn new(list: &'a [u8], cluster: u64) -> Result<DataRuns<'a>, Refusal>
        ensures { result_map_both runs_left (λ why. why) result ≡ runs_of cluster list.now }
    {
        let cluster = ClusterSize::new(cluster).ok_or(Refusal::Unsound)?.bytes();
        let cursor = Some(Cursor::START);
        Ok(DataRuns {
            list,
            cluster,
            cursor,
        })
    }
}

impl Iterator for DataRuns<'_> {
    type Item = Result<(Run, Cursor), Refusal>;

    ghost next_gives = { YieldsFirstBy step_of runs_left };

    ghost remaining = { item_count runs_left };

    #[tactic(auto, using(crate::proofs::Rule::steps_rule))]
    fn next(&mut self) -> Option<Result<(Run, Cursor), Refusal>> {
        let cursor = self.cursor.take()?;
        match cursor.decode(self.list, self.cluster) {
            Ok(None) => None,
            Ok(Some((run, next))) => {
                self.cursor = Some(next);
                Some(Ok((run, next)))
            }
            Err(why) => Some(Err(why)),
        }
    }
}

impl Place {
    /// The place so many bytes further on, or none where that is past 2^64 - 1.
    #[tactic(auto, unfolding(format::specs::Number::within, format::specs::Pick::pick))]
    pub fn further(self, by: u64) -> Option<Place>
        ensures { result ≡ further_on self by }
    {
        match self {
            Place::Disk(place) => place.checked_add(by).map(Place::Disk),
            Place::Hole => Some(Place::Hole),
        }
    }
}

impl Cursor {
    /// At the list's start, with no run before.
    pub const START: Cursor = Cursor { at: 0, lcn: 0 };

    /// The run whose header stands at the cursor, with the cursor behind it, or none where the list is over. The size
    /// of a cluster in bytes is taken as it is; [`Cursor::next`] judges it.
    ///
    /// Refused is, by the cursor of the run's header, in this order: `Nibble`, a count of more than 8 bytes; `Cut`, a
    /// count that isn't all there; `NoClusters`, a count of 0; `RunSize`, a size over 2^64 - 1; then `Nibble` and `Cut`
    /// of the delta; `RunLcn`, an LCN below 0 or over 2^64 - 1; and of a run on the disk `RunPlace` and `RunEnd`, a
    /// place or an end over 2^64 - 1.
    #[tactic(auto, unfolding(format::specs::Number::unsigned, format::specs::Number::signed, format::specs::Runs::step, format::specs::Runs::count_part, format::specs::Runs::delta_part, format::specs::Number::within, format::specs::Pick::pick))]
    pub fn decode(self, list: &[u8], cluster: u64) -> Result<Option<(Run, Cursor)>, Refusal>
        ensures step { shown result ≡ step cluster list.now self.at self.lcn }
        ensures ahead { IfOk result (λ met. IfSome met (λ found. self.at + 1 < found.1.at)) }
        ensures inside { IfOk result (λ met. IfSome met (λ found. found.1.at ≤ length list.now)) }
        ensures sized { 0 < cluster → IfOk result (λ met. IfSome met (λ found. 0 < found.0.size)) }
        ensures ends { IfOk result (λ met. IfSome met (λ found. Inside (shown_place found.0.place) found.0.size)) }
    {
        let (cursor, previous) = (self.at, self.lcn);
        let Some(&head) = list.get(cursor) else {
            return Ok(None);
        };
        if head == 0 {
            return Ok(None);
        }
        let count_len = usize::from(head % 16);
        let delta_len = usize::from(head / 16);
        if count_len > 8 {
            return Err(Refusal::Nibble { cursor });
        }
        let count = number(field(list, cursor + 1, count_len).ok_or(Refusal::Cut { cursor })?);
        if count == 0 {
            return Err(Refusal::NoClusters { cursor });
        }
        let size = types::times(count, cluster).ok_or(Refusal::RunSize { cursor })?;
        if delta_len > 8 {
            return Err(Refusal::Nibble { cursor });
        }
        let from = cursor + 1 + count_len;
        let delta = number(field(list, from, delta_len).ok_or(Refusal::Cut { cursor })?);
        let delta = types::extended(delta, delta_len);
        let to = Lcn(previous).moved(delta);
        let to = to.ok_or(Refusal::RunLcn { cursor, previous })?;
        let (at, lcn) = (from + delta_len, to.0);
        if is_hole(delta_len, delta, to) {
            let place = Place::Hole;
            return Ok(Some((Run { size, place }, Cursor { at, lcn })));
        }
        let first = to.position(cluster).ok_or(Refusal::RunPlace { cursor })?;
        if !ends_inside(first, size) {
            return Err(Refusal::RunEnd { cursor });
        }
        let place = Place::Disk(first);
        Ok(Some((Run { size, place }, Cursor { at, lcn })))
    }

    /// The same of any list: refused with `Unsound` first, where the cluster size isn't a power of two from 512 to
    /// 2,097,152 or the cursor stands past the list.
    #[tactic(auto, unfolding(format::specs::Runs::next, format::specs::Pick::pick))]
    pub fn next(self, list: &[u8], cluster: u64) -> Result<Option<(Run, Cursor)>, Refusal>
        ensures { shown result ≡ next cluster list.now self.at self.lcn }
    {
        if !types::cluster_sound(cluster) || self.at > list.len() {
            return Err(Refusal::Unsound);
        }
        self.decode(list, cluster)
    }
}

/// The hole rule, of the delta's byte length, the delta and the LCN that it leads to.
#[tactic(auto, unfolding(format::specs::Runs::is_hole, format::specs::Pick::pick))]
fn is_hole(len: usize, delta: i128, lcn: Lcn) -> bool
    ensures { result ≡ is_hole len delta lcn.0 }
{
    delta == 0 || lcn.0 == 0
}

/// Whether a disk run of this size ends at 2^64 - 1 or before.
#[tactic(auto, unfolding(format::specs::Runs::ends))]
pub fn ends_inside(place: u64, size: u64) -> bool
    ensures rule { result ≡ ends place size }
    ensures fits { result ≡ true → place + size < 2 ^ 64 }
{
    place.checked_add(size).is_some()
}

/// So many bytes from a place on, if the list has them.
fn field(list: &[u8], from: usize, len: usize) -> Option<&[u8]>
    ensures { option_map (λ b. b.now) result ≡ inside list.now from len (take len (drop from list.now)) }
{
    list.get(from..)?.get(..len)
}

/// At most eight bytes, and behind them a zero for each that isn't there.
fn gathered(bytes: &[u8]) -> [u8; 8]
    requires { length bytes.now ≤ 8 }
    ensures { result ≡ bytes.now ++ drop (length bytes.now) (replicate 8 0) }
{
    let mut scratch = [0; 8];
    scratch[..bytes.len()].copy_from_slice(bytes);
    scratch
}

// It is not `types::number_at`, which goes byte by byte and answers for bytes that aren't there: most of a decoding's
// time is spent here.
/// The unsigned number of at most eight bytes.
#[tactic(auto, using(crate::proofs::Scratch::padded))]
fn number(bytes: &[u8]) -> u64
    requires { length bytes.now ≤ 8 }
    ensures { result ≡ little bytes.now }
{
    u64::from_le_bytes(gathered(bytes))
}
