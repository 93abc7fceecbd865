//! Thin calls that change a lent reader in place: the reader is copied out, the by-value method is called, and what it
//! leaves is stored. A refused call leaves the reader as it was.
#![tactic(auto)]

ghost use Rattle.in_place.specs.Promise.{Seeks, Reads};

use non_resident::{Reader, Reading, Whence};
use refusal::Refusal;

/// [`Reader::seek`] on a lent reader, which is then the reader of the answer.
pub fn seek(reader: &mut Reader, list: &[u8], from: Whence, by: i128) -> Result<Reader, Refusal>
    ensures { Seeks reader.old list.now from by result reader.new }
{
    *reader = reader.seek(list, from, by)?;
    Ok(*reader)
}

/// [`Reader::read`] on a lent reader, which is then the reader of the answer.
pub fn read(
    reader: &mut Reader,
    list: &[u8],
    wanted: u64,
    store: &mut [u64],
) -> Result<Reading, Refusal>
    ensures { Reads reader.old list.now wanted store.old result reader.new store.new }
{
    let reading = reader.read(list, wanted, store)?;
    *reader = reading.reader;
    Ok(reading)
}
