//! The entries of one call: a boot sector, a record, a run, a lookup. None where the library's answer isn't what the
//! entry says.
use crate::body::Body;

pub fn boot_sector(body: &mut Body<'_>) -> Option<()> {
    let mut out = [0; 8];
    let mut room = [0; 512];
    let sector = body.sparse(&mut room)?;
    let number = capi::archthimble_geometry(sector, &mut out);
    body.answer(number, &out)
}

pub fn record(body: &mut Body<'_>) -> Option<()> {
    let mut out = [0; 8];
    let mut record = [0; 4096];
    let length = body.sparse(&mut record)?.len();
    let mut wanted = record;
    let number = capi::archthimble_repair(record.get_mut(..length)?, &mut out);
    body.answer(number, &out[..3])?;
    changes(body, &mut wanted)?;
    (record == wanted).then_some(())
}

/// The bytes that a repair changes, put into the record as it was: pairs of an index and a byte.
fn changes(body: &mut Body<'_>, wanted: &mut [u8]) -> Option<()> {
    for _ in 0..body.word()? {
        let index = body.size()?;
        let byte = u8::try_from(body.word()?).ok()?;
        *wanted.get_mut(index)? = byte;
    }
    Some(())
}

pub fn run(body: &mut Body<'_>) -> Option<()> {
    let mut out = [0; 8];
    let cluster = body.word()?;
    let at = body.word()?;
    let lcn = body.word()?;
    let number = capi::archthimble_next_run(body.list()?, cluster, at, lcn, &mut out);
    body.answer(number, &out[..6])
}

// Beside `run`: an entry has other words, and the call is another.
pub fn lookup(body: &mut Body<'_>) -> Option<()> {
    let mut out = [0; 8];
    let cluster = body.word()?;
    let offset = body.word()?;
    let number = capi::archthimble_lookup(body.list()?, cluster, offset, &mut out);
    body.answer(number, &out[..2])
}
