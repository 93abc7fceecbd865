//! A reader as sixteen words, there and back.

ghost use Rattle.std.specs.Prelude.{◌≡◌};
ghost use Rattle.format.specs.Calls.{held};
ghost use Rattle.non_resident.specs.Shown.{seen, shown_current, shown_from, shown_sought, shown_outcome};
ghost use Rattle.capi.specs.Words.{packed, current_of, held_of, from_of, tell_held, tell_count};
ghost use Rattle.capi.specs.Shown.{shown, words_left};

use crate::answers;
use answers::{Answer, NOTHING, two};
use data_runs::{Cursor, Place, Run};
use non_resident::{Reader, Reading, Stand, Whence};
use refusal::Refusal;

/// The words of a reader.
pub(crate) const READER: usize = 16;

/// The current run of its three words; a kind over 2 is a hole as well.
#[tactic(auto, unfolding(format::specs::Pick::pick))]
fn current(kind: u64, size: u64, place: u64) -> Option<Run>
    ensures { shown_current result ≡ current_of kind size place }
{
    let place = match kind {
        0 => return None,
        1 => Place::Disk(place),
        _ => Place::Hole,
    };
    Some(Run { size, place })
}

/// The reader of its words.
#[tactic(auto, unfolding(crate::specs::Words::held_of))]
pub(crate) fn unpack(words: &[u64; READER]) -> Reader
    ensures { seen result ≡ held_of words.now }
{
    let cursor = Cursor {
        at: words[1] as usize,
        lcn: words[2],
    };
    Reader {
        cluster: words[0],
        stand: Stand {
            cursor,
            current: current(words[3], words[4], words[5]),
            displacement: words[6],
        },
        place: words[7],
        size: words[8],
    }
}

/// The words of a reader, the seven to spare 0. Where there is no current run its three words are 0.
fn pack(reader: Reader) -> [u64; READER]
    ensures { result ≡ packed (seen reader) }
{
    let stand = reader.stand;
    let (kind, size, place) = match stand.current {
        None => (0, 0, 0),
        Some(run) => match run.place {
            Place::Disk(place) => (1, run.size, place),
            Place::Hole => (2, run.size, 0),
        },
    };
    let mut words = [0; READER];
    words[..9].copy_from_slice(&[
        reader.cluster,
        stand.cursor.at as u64,
        stand.cursor.lcn,
        kind,
        size,
        place,
        stand.displacement,
        reader.place,
        reader.size,
    ]);
    words
}

/// The reader that an opening or a seek gives, into its words; a refusal leaves them.
pub(crate) fn keep(words: &mut [u64; READER], sought: Result<Reader, Refusal>) -> Answer
    ensures told { shown result ≡ tell_held (shown_sought sought) }
    ensures left { words.new ≡ words_left words.old (shown_sought sought) }
{
    *words = pack(sought?);
    Ok(NOTHING)
}

/// The same for a read, which tells its span count and byte count.
pub(crate) fn keep_reading(words: &mut [u64; READER], reading: Result<Reading, Refusal>) -> Answer
    ensures told { shown result ≡ tell_count (shown_outcome reading) }
    ensures left { words.new ≡ words_left words.old (held (shown_outcome reading)) }
{
    let reading = reading?;
    *words = pack(reading.reader);
    Ok(two(reading.spans as u64, reading.bytes))
}

/// Where a seek counts from: 0 the start, 1 the place, any other number the end.
#[tactic(auto, unfolding(format::specs::Pick::pick))]
pub(crate) fn whence(from: u64) -> Whence
    ensures { shown_from result ≡ from_of from }
{
    match from {
        0 => Whence::Start,
        1 => Whence::Place,
        _ => Whence::End,
    }
}
