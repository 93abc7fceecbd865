//! The reader of a non-resident value: opening, seeking, reading into a store of spans, data position.
#![tactic(auto)]

mod span;
mod stand;

ghost use Rattle.std.specs.Prelude.{◌≡◌, true, ◌+◌, ◌/◌, ◌≤◌, length, Ok, Err, IfOk, if◌then◌else◌};
ghost use Rattle.refusal.specs.declared.Refusal.TheVariants.{Unsound};
ghost use Rattle.format.specs.Runs.{step};
ghost use Rattle.format.specs.Listed.{run_list};
ghost use Rattle.format.specs.Reader.{seek_to, base, give, fetch, turn, read};
ghost use Rattle.format.specs.Calls.{hold, current_sound, sound, sound_in, opening, seeking, reading, counted, stored};
ghost use Rattle.format.specs.Calls.{standing};
ghost use Rattle.non_resident.specs.Shown.{shown_current, shown_stand, seen, shown_from, shown_sought, shown_turn};
ghost use Rattle.non_resident.specs.Shown.{shown_reading, shown_outcome, shown_position};

use data_runs::{Cursor, Place};
use refusal::Refusal;
use span::Span;
pub use stand::Stand;
use types::ClusterSize;

/// A reader between calls; the list is lent with each of them.
#[derive(Clone, Copy, Debug, PartialEq, Eq)]
pub struct Reader {
    /// The size of a cluster in bytes.
    pub cluster: u64,
    /// Where it stands in the list.
    pub stand: Stand,
    /// Its place in the stream, in bytes from the start.
    pub place: u64,
    /// The data size: how many bytes the stream has.
    pub size: u64,
}

/// What a seek counts from: the stream's start, the reader's place, or the data's end.
#[derive(Clone, Copy, Debug, PartialEq, Eq)]
pub enum Whence {
    Start,
    Place,
    End,
}

/// What a read gave: how many spans, how many bytes they have, and the reader afterwards.
#[derive(Clone, Copy, Debug, PartialEq, Eq)]
pub struct Reading {
    pub spans: usize,
    pub bytes: u64,
    pub reader: Reader,
}

impl Reader {
    /// A new reader at place 0, of a stream of so many bytes, with the first run decoded.
    ///
    /// Refused is `Unsound`, a cluster size that isn't a power of two from 512 to 2,097,152; then what the first run is
    /// refused with.
    #[tactic(auto, unfolding(format::specs::Calls::opening, format::specs::Reader::opened, format::specs::Pick::pick))]
    pub fn open(list: &[u8], cluster: u64, size: u64) -> Result<Reader, Refusal>
        ensures { shown_sought result ≡ opening cluster list.now size }
    {
        let sound = ClusterSize::new(cluster).ok_or(Refusal::Unsound)?;
        let stand = Stand::START.forward(list, sound, 0)?;
        Ok(Reader {
            cluster,
            stand,
            place: 0,
            size,
        })
    }

    /// The cluster size of a reader that is sound apart from its cursor, or `Unsound`.
    #[tactic(auto, unfolding(format::specs::Calls::sound, format::specs::Pick::pick))]
    fn sound(self) -> Result<ClusterSize, Refusal>
        ensures { result ≡ (if sound (seen self) then Ok self.cluster else Err Unsound) }
    {
        let cluster = ClusterSize::new(self.cluster).ok_or(Refusal::Unsound)?;
        if !self.stand.is_sound() {
            return Err(Refusal::Unsound);
        }
        Ok(cluster)
    }

    /// The same of a reader that is sound in a list of `end` bytes.
    #[tactic(auto, unfolding(format::specs::Calls::sound_in, format::specs::Pick::pick))]
    fn sound_in(self, end: usize) -> Result<ClusterSize, Refusal>
        ensures { result ≡ (if sound_in end (seen self) then Ok self.cluster else Err Unsound) }
    {
        if self.stand.cursor.at > end {
            return Err(Refusal::Unsound);
        }
        self.sound()
    }

    /// To a place in the stream: there already, behind, ahead.
    #[tactic(auto, unfolding(format::specs::Reader::seek_to, format::specs::Pick::pick))]
    fn seek_to(self, list: &[u8], cluster: ClusterSize, place: u64) -> Result<Reader, Refusal>
        ensures { shown_sought result ≡ hold self.cluster (seek_to (run_list cluster list.now) (seen self).reader place) }
    {
        if place == self.place {
            return Ok(self);
        }
        let stand = match place.checked_sub(self.place) {
            Some(ahead) => self.stand.forward(list, cluster, ahead)?,
            None => Stand::START.forward(list, cluster, place)?,
        };
        Ok(Reader {
            stand,
            place,
            ..self
        })
    }

    /// Where a seek counts from.
    #[tactic(auto, unfolding(format::specs::Reader::base))]
    fn base(self, from: Whence) -> u64
        ensures { result ≡ base self.place self.size (shown_from from) }
    {
        match from {
            Whence::Start => 0,
            Whence::Place => self.place,
            Whence::End => self.size,
        }
    }

    /// The reader at so many bytes from there.
    ///
    /// Refused is, in this order: `Unsound`, a cluster size that isn't a power of two from 512 to 2,097,152, a cursor
    /// past the list, a displacement over the current run's size (or not 0 without a run), or a current run on the disk
    /// that ends past 2^64 - 1; `Target`, a place below 0 or over 2^64 - 1; what a run on the way is refused with.
    #[tactic(auto, unfolding(format::specs::Calls::seeking, format::specs::Reader::seek, format::specs::Reader::target, format::specs::Pick::pick))]
    pub fn seek(self, list: &[u8], from: Whence, by: i128) -> Result<Reader, Refusal>
        ensures { shown_sought result ≡ seeking list.now (seen self) (shown_from from) by }
    {
        let cluster = self.sound_in(list.len())?;
        let place = types::sum(self.base(from), by).ok_or(Refusal::Target)?;
        self.seek_to(list, cluster, place)
    }

    /// A span of the run where a stand is: the least of what is wanted, what is left of the run and the data left.
    #[tactic(auto, unfolding(format::specs::Reader::give), using(crate::proofs::Laws::here_sound))]
    fn give(self, wanted: u64, stand: Stand) -> (Span, Reader)
        requires { (self.place ≤ self.size) × (current_sound (shown_current stand.current) stand.displacement ≡ true) }
        ensures gives { shown_turn (Ok (Some result.0, result.1)) ≡ give wanted (seen self).reader (shown_stand stand) }
        ensures same { result.1.cluster ≡ self.cluster }
    {
        let length = wanted.min(stand.left().min(self.size - self.place));
        let place = stand.here();
        let displacement = stand.displacement + length;
        let reader = Reader {
            stand: Stand {
                displacement,
                ..stand
            },
            place: self.place + length,
            ..self
        };
        (Span { place, length }, reader)
    }

    /// A span of the next run, or where the list is over none, with the cursor at its end.
    #[tactic(auto, using(crate::proofs::Laws::entered_sound), unfolding(format::specs::Reader::fetch))]
    fn fetch(self, list: &[u8], wanted: u64) -> Result<(Option<Span>, Reader), Refusal>
        requires { self.place ≤ self.size }
        ensures turns { let next = step self.cluster list.now self.stand.cursor.at self.stand.cursor.lcn in
            shown_turn result ≡ fetch (run_list self.cluster list.now) wanted (seen self).reader next }
        ensures same { IfOk result (λ t. t.1.cluster ≡ self.cluster) }
    {
        let cursor = self.stand.cursor;
        let Some((run, next)) = cursor.decode(list, self.cluster)? else {
            let cursor = Cursor {
                at: list.len(),
                ..cursor
            };
            let stand = Stand {
                cursor,
                ..self.stand
            };
            return Ok((None, Reader { stand, ..self }));
        };
        let (span, reader) = self.give(wanted, Stand::entered(run, next));
        Ok((Some(span), reader))
    }

    /// The next span of a read and the reader behind it; none where the read stops.
    #[tactic(auto, unfolding(format::specs::Reader::turn, format::specs::Pick::pick))]
    fn turn(self, list: &[u8], wanted: u64) -> Result<(Option<Span>, Reader), Refusal>
        requires { current_sound (shown_current self.stand.current) self.stand.displacement ≡ true }
        ensures turns { shown_turn result ≡ turn (run_list self.cluster list.now) wanted (seen self).reader }
        ensures same { IfOk result (λ t. t.1.cluster ≡ self.cluster) }
    {
        if wanted == 0 || self.place >= self.size {
            return Ok((None, self));
        }
        if self.stand.left() == 0 {
            return self.fetch(list, wanted);
        }
        let (span, reader) = self.give(wanted, self.stand);
        Ok((Some(span), reader))
    }

    /// What a read gave that left the reader here.
    fn after(self, spans: usize, bytes: u64) -> Reading
        ensures { shown_reading result ≡ record { spans = spans; bytes = bytes; reader = seen self } }
    {
        Reading {
            spans,
            bytes,
            reader: self,
        }
    }

    /// The spans of a sound reader, one by one into the store. They are counted, since each way out answers their
    /// number.
    fn fill(self, list: &[u8], wanted: u64, store: &mut [u64]) -> Result<Reading, Refusal>
        requires { sound_in (length list.now) (seen self) ≡ true }
        ensures { let x = read (run_list self.cluster list.now) (length store.old / 3) wanted (seen self).reader in
            (shown_outcome result ≡ counted self.cluster x) × (store.new ≡ stored store.old x) }
    {
        let mut reader = self;
        let mut left = wanted;
        let room = store.len() / 3;
        for spans in 0..room {
            let (span, behind) = match reader.turn(list, left) {
                Ok(turn) => turn,
                Err(why) if spans == 0 => return Err(why),
                Err(_) => return Ok(reader.after(spans, wanted - left)),
            };
            let Some(span) = span else {
                return Ok(behind.after(spans, wanted - left));
            };
            span.put(store, 3 * spans);
            left -= span.length;
            reader = behind;
        }
        Ok(reader.after(room, wanted - left))
    }

    /// The spans of so many bytes from the reader's place on, into a store, three words each: position (0 in a hole),
    /// length, kind (1 on the disk, 0 in a hole). A read ends with what is wanted, the store, the data, the list, or
    /// in front of a refused run. Words past the spans keep their values.
    ///
    /// Refused is `Unsound`, as by [`Reader::seek`]; then what a run is refused with before there is a span. The store
    /// is then as it was.
    #[tactic(auto, unfolding(format::specs::Calls::reading, format::specs::Pick::pick))]
    pub fn read(self, list: &[u8], wanted: u64, store: &mut [u64]) -> Result<Reading, Refusal>
        ensures answer { shown_outcome result ≡ counted self.cluster (reading list.now (seen self) wanted store.old) }
        ensures store { store.new ≡ stored store.old (reading list.now (seen self) wanted store.old) }
    {
        self.sound_in(list.len())?;
        self.fill(list, wanted, store)
    }

    /// The disk position of the reader's place in its current run, or none in a hole or without a run. Refused is
    /// `Unsound`, as by [`Reader::seek`], but for the cursor, which isn't judged.
    #[tactic(auto, using(crate::proofs::Laws::stands, crate::proofs::Laws::on_disk, crate::proofs::Laws::in_hole), unfolding(format::specs::Calls::standing, format::specs::Pick::pick))]
    pub fn data_position(self) -> Result<Option<u64>, Refusal>
        ensures { shown_position result ≡ standing (seen self) }
    {
        self.sound()?;
        match self.stand.here() {
            Place::Disk(position) => Ok(Some(position)),
            Place::Hole => Ok(None),
        }
    }
}
