//! Where a reader stands in its list.

ghost use Rattle.std.specs.Prelude.{◌≡◌, true, ◌+◌, ◌<◌, ◌^◌};
ghost use Rattle.format.specs.Listed.{run_list, listed};
ghost use Rattle.format.specs.Reader.{left, entered, settle, forward};
ghost use Rattle.format.specs.Calls.{place_sound, current_sound};
ghost use Rattle.data_runs.specs.Shown.{shown_place, shown_run};
ghost use Rattle.non_resident.specs.Shown.{shown_current, shown_stand, shown_settled, place_at};

use data_runs::{Cursor, Place, Run};
use refusal::Refusal;
use types::ClusterSize;

/// Where a reader stands in its list: the cursor behind the current run, that run if there is one, and how many of its
/// bytes are behind the reader.
#[derive(Clone, Copy, Debug, PartialEq, Eq)]
pub struct Stand {
    pub cursor: Cursor,
    pub current: Option<Run>,
    pub displacement: u64,
}

/// Whether a run ends at 2^64 - 1 or before.
#[tactic(auto, unfolding(format::specs::Calls::place_sound))]
fn run_is_sound(run: Run) -> bool
    ensures { result ≡ place_sound (shown_place run.place) run.size }
{
    match run.place {
        Place::Disk(place) => data_runs::ends_inside(place, run.size),
        Place::Hole => true,
    }
}

/// Over whole runs from a cursor on: where so many bytes on stand.
#[tactic(auto, using(crate::proofs::Rule::settle_rule), unfolding(format::specs::Pick::pick))]
fn settle(list: &[u8], cluster: ClusterSize, from: Cursor, by: u64) -> Result<Stand, Refusal>
    ensures { let runs = run_list cluster list.now in
        shown_settled result ≡ settle runs (listed runs from.at from.lcn) by }
{
    let mut cursor = from;
    let mut by = by;
    while let Some((run, next)) = cursor.decode(list, cluster.bytes())? {
        if by < run.size {
            return Ok(Stand {
                cursor: next,
                current: Some(run),
                displacement: by,
            });
        }
        by -= run.size;
        cursor = next;
    }
    let cursor = Cursor {
        at: list.len(),
        ..cursor
    };
    Ok(Stand {
        cursor,
        current: None,
        displacement: 0,
    })
}

impl Stand {
    /// At the list's start with nothing decoded.
    pub const START: Stand = Stand {
        cursor: Cursor::START,
        current: None,
        displacement: 0,
    };

    /// In front of a run that was fetched, with the cursor behind it.
    pub(crate) fn entered(run: Run, cursor: Cursor) -> Stand
        ensures { shown_stand result ≡ entered (shown_run run) cursor.at cursor.lcn }
    {
        Stand {
            cursor,
            current: Some(run),
            displacement: 0,
        }
    }

    /// Whether the displacement is inside the current run, which ends at 2^64 - 1 or before; without one it must be 0.
    #[tactic(auto, unfolding(format::specs::Calls::current_sound, format::specs::Pick::pick))]
    pub(crate) fn is_sound(self) -> bool
        ensures { result ≡ current_sound (shown_current self.current) self.displacement }
    {
        match self.current {
            Some(run) => self.displacement <= run.size && run_is_sound(run),
            None => self.displacement == 0,
        }
    }

    /// What is left of the current run, in bytes; nothing without one.
    #[tactic(auto, unfolding(format::specs::Reader::left_of))]
    pub(crate) fn left(self) -> u64
        ensures left { result ≡ left (shown_stand self) }
        ensures fits { result + self.displacement < 2 ^ 64 }
    {
        match self.current {
            Some(run) => run.size.saturating_sub(self.displacement),
            None => 0,
        }
    }

    /// The place of the displacement in the current run; a hole without one.
    #[tactic(auto, using(crate::proofs::Laws::no_end), unfolding(format::specs::Number::within, format::specs::Pick::pick))]
    pub(crate) fn here(self) -> Place
        requires { current_sound (shown_current self.current) self.displacement ≡ true }
        ensures { result ≡ place_at self.current self.displacement }
    {
        match self.current {
            Some(run) => match run.place {
                Place::Disk(place) => Place::Disk(place + self.displacement),
                Place::Hole => Place::Hole,
            },
            None => Place::Hole,
        }
    }

    /// So many bytes on: inside the current run only the displacement moves, otherwise whole runs are passed.
    #[tactic(auto, unfolding(format::specs::Reader::forward, format::specs::Pick::pick))]
    pub(crate) fn forward(
        self,
        list: &[u8],
        cluster: ClusterSize,
        by: u64,
    ) -> Result<Stand, Refusal>
        ensures { shown_settled result ≡ forward (run_list cluster list.now) (shown_stand self) by }
    {
        let left = self.left();
        if by < left {
            let displacement = self.displacement + by;
            return Ok(Stand {
                displacement,
                ..self
            });
        }
        settle(list, cluster, self.cursor, by - left)
    }
}
