//! `archthimble spans`: where a stretch of the stream lies, span by span, and a bar over it.
use crate::runs::Bar;
use crate::table::{Spot, explain};
use crate::words;
use crate::words::{ROOM, Word};
use data_runs::Place;
use non_resident::{Reader, Whence};
use refusal::Refusal;
use std::env::Env;
use std::io;

/// How many spans a read has room for, of three words each.
const SPANS: usize = 10;

/// What is to be read: so many bytes from an offset on, in a stream of a size.
#[derive(Clone, Copy, Debug)]
struct Stretch {
    cluster: u64,
    size: u64,
    offset: u64,
    length: u64,
}

impl Stretch {
    fn of(numbers: [Option<u64>; 4]) -> Option<Stretch> {
        let [cluster, size, offset, length] = numbers;
        Some(Stretch {
            cluster: cluster?,
            size: size?,
            offset: offset?,
            length: length?,
        })
    }

    /// A reader that stands at the offset.
    fn reader(self, list: &[u8]) -> Result<Reader, Refusal> {
        let reader = Reader::open(list, self.cluster, self.size)?;
        reader.seek(list, Whence::Start, i128::from(self.offset))
    }
}

pub fn sample(rt: &impl Print) -> io::Result<()> {
    let list = b"\x11\x02\x0a\x11\x01\xfe\x01\x03\x11\x02\x05\x00";
    println!(rt;
        "Bytes 900 to 1899 of a stream, as its run list places them ('archthimble help' says what else there is):\n"
    )?;
    let stretch = Stretch {
        cluster: 512,
        size: 4000,
        offset: 900,
        length: 1000,
    };
    show(rt, list, stretch)
}

pub fn typed(rt: &(impl Print + Env), list: Word, numbers: [Word; 4]) -> io::Result<()> {
    let mut room = [0; ROOM];
    let list = words::list(rt, list, &mut room)?;
    let numbers = numbers.try_map(|word| words::number(rt, word))?;
    let (Some(list), Some(stretch)) = (list, Stretch::of(numbers)) else {
        return Ok(());
    };
    show(rt, list, stretch)
}

fn show(rt: &impl Print, list: &[u8], stretch: Stretch) -> io::Result<()> {
    match stretch.reader(list) {
        Ok(reader) => read(rt, list, reader, stretch.length),
        Err(refusal) => explain(rt, refusal),
    }
}

fn read(rt: &impl Print, list: &[u8], reader: Reader, length: u64) -> io::Result<()> {
    println!(rt; "               offset                bytes  place")?;
    let (end, missing) = table(rt, list, reader, length)?;
    let bar = Bar {
        list,
        cluster: reader.cluster,
        from: reader.place,
        to: end.place,
    };
    println!(rt; "{bar}")?;
    if missing > 0 {
        println!(rt; "{missing} bytes more were asked for, but the runs or the data end here.")?;
    }
    Ok(())
}

/// Reads on until nothing more comes, a line for each span: no list has more runs than bytes. Answers the reader behind
/// the last span, and how many of the bytes that were asked for are missing.
fn table(rt: &impl Print, list: &[u8], reader: Reader, length: u64) -> io::Result<(Reader, u64)> {
    let mut reader = reader;
    let mut missing = length;
    for _ in 0..=list.len() {
        let mut store = [0; 3 * SPANS];
        match reader.read(list, missing, &mut store) {
            Ok(reading) => {
                lines(rt, &store, reading.spans, reader)?;
                reader = reading.reader;
                missing = missing.wrapping_sub(reading.bytes);
                if reading.spans == 0 {
                    break;
                }
            }
            Err(refusal) => {
                explain(rt, refusal)?;
                break;
            }
        }
    }
    Ok((reader, missing))
}

fn lines(rt: &impl Print, store: &[u64], spans: usize, reader: Reader) -> io::Result<()> {
    let mut offset = reader.place;
    let (triples, _) = store.as_chunks::<3>();
    for [position, size, kind] in triples.iter().take(spans) {
        // a store holds words: a kind is 1 on the disk and 0 in a hole
        let place = match kind {
            1 => Place::Disk(*position),
            _ => Place::Hole,
        };
        println!(rt;
            "{offset:>21}{size:>21}  {}",
            Spot {
                place,
                cluster: reader.cluster
            }
        )?;
        offset = offset.wrapping_add(*size);
    }
    Ok(())
}
