//! A reader over its list, one call at a time, each told with what it answers.
use data_runs::{Cursor, Place, Run};
use non_resident::{Reader, Stand, Whence};
use refusal::{Numbered, Refusal};
use std::{fmt, io};

/// All parts of a reader.
#[derive(Clone, Copy)]
struct Parts(Reader);

impl fmt::Display for Parts {
    fn fmt<W: fmt::Write>(&self, f: &mut fmt::Formatter<W>) -> fmt::Result {
        let Reader {
            cluster,
            stand,
            place,
            size,
        } = self.0;
        let Stand {
            cursor: Cursor { at, lcn },
            current,
            displacement,
        } = stand;
        write!(
            f,
            "place {place} of {size}, cluster {cluster}, cursor {at}, LCN {lcn}, "
        )?;
        match current {
            None => write!(f, "no run")?,
            Some(Run { size, place }) => match place {
                Place::Disk(place) => write!(f, "run at {place} of {size}")?,
                Place::Hole => write!(f, "hole of {size}")?,
            },
        }
        write!(f, ", displacement {displacement}")
    }
}

/// What a refused opening would leave to go on with: every call refuses it. No case here has one.
const NONE: Reader = Reader {
    cluster: 0,
    stand: Stand::START,
    place: 0,
    size: 0,
};

/// A reader and its list. A refused call leaves the reader as it was.
#[derive(Clone, Copy)]
pub struct Trial<'a> {
    pub list: &'a [u8],
    pub reader: Reader,
}

impl<'a> Trial<'a> {
    pub fn open(rt: &impl Print, list: &'a [u8], cluster: u64, size: u64) -> io::Result<Self> {
        print!(rt; "open: ")?;
        let none = Trial { list, reader: NONE };
        none.reached(rt, Reader::open(list, cluster, size))
    }

    pub fn seek(self, rt: &impl Print, whence: Whence, amount: i128) -> io::Result<Self> {
        print!(rt; "seek: ")?;
        self.reached(rt, self.reader.seek(self.list, whence, amount))
    }

    fn reached(self, rt: &impl Print, sought: Result<Reader, Refusal>) -> io::Result<Self> {
        match sought {
            Ok(reader) => {
                println!(rt; "{}", Parts(reader))?;
                Ok(Trial { reader, ..self })
            }
            Err(refusal) => {
                println!(rt; "{}", Numbered(refusal))?;
                Ok(self)
            }
        }
    }

    /// A read into a store of nine words at most, each 7 before the call, and the whole store after it.
    pub fn read(self, rt: &impl Print, bytes: u64, words: usize) -> io::Result<Self> {
        let mut room = [7; 9];
        let words = words.min(room.len());
        let store = &mut room[..words];
        print!(rt; "read {bytes}: ")?;
        let read = match self.reader.read(self.list, bytes, store) {
            Ok(reading) => {
                print!(rt; "spans {}, bytes {} ", reading.spans, reading.bytes)?;
                println!(rt; "{}", Parts(reading.reader))?;
                Trial {
                    reader: reading.reader,
                    ..self
                }
            }
            Err(refusal) => {
                println!(rt; "{}", Numbered(refusal))?;
                self
            }
        };
        print!(rt; "store")?;
        for word in store {
            print!(rt; " {word}")?;
        }
        println!(rt)?;
        Ok(read)
    }

    pub fn data_position(self, rt: &impl Print) -> io::Result<()> {
        print!(rt; "data position: ")?;
        match self.reader.data_position() {
            Ok(Some(position)) => println!(rt; "{position}"),
            Ok(None) => println!(rt; "none"),
            Err(refusal) => println!(rt; "{}", Numbered(refusal)),
        }
    }
}
