//! A history: an opening, then seeks and reads, the reader going from call to call.
use crate::body::Body;
use crate::spans;

/// What a call with too short a store answers: a number, as C has it.
const SHORT: u64 = 255;

/// A call as an entry has it, where it is three numbers. `Unknown` is none that the library has.
#[derive(Clone, Copy, Debug, PartialEq, Eq)]
enum Call {
    Open,
    Seek { from: u64, by: u64 },
    SeekSigned { from: u64, by: i64 },
    Read { bytes: u64, room: usize },
    Unknown,
}

impl From<[u64; 3]> for Call {
    fn from([kind, first, second]: [u64; 3]) -> Call {
        match kind {
            0 => Call::Open,
            1 => Call::Seek {
                from: first,
                by: second,
            },
            2 => Call::SeekSigned {
                from: first,
                by: second.cast_signed(),
            },
            // a room that is no usize here is over the store's length as well
            3 => Call::Read {
                bytes: first,
                room: second as usize,
            },
            _ => Call::Unknown,
        }
    }
}

#[derive(Drop)]
struct History<'a> {
    cluster: u64,
    size: u64,
    list: &'a [u8],
    reader: [u64; 16],
}

impl History<'_> {
    /// Makes a call, and gives the number that it answers.
    fn make(&mut self, call: Call, store: &mut [u64], out: &mut [u64]) -> u64 {
        let reader = &mut self.reader;
        match call {
            Call::Open => capi::archthimble_open(self.list, self.cluster, self.size, reader, out),
            Call::Seek { from, by } => capi::archthimble_seek(self.list, reader, from, by, out),
            Call::SeekSigned { from, by } => {
                capi::archthimble_seek_signed(self.list, reader, from, by, out)
            }
            Call::Read { bytes, room } => match store.get_mut(..room) {
                Some(store) => capi::archthimble_read(self.list, reader, bytes, store, out),
                None => SHORT,
            },
            Call::Unknown => SHORT,
        }
    }

    /// A call and its answer: the refusal and the spans. An accepted call has no words of its own here: what a read
    /// counts is told by its spans, and no other call has any.
    fn call(&mut self, body: &mut Body<'_>) -> Option<()> {
        let mut store = [0; 96];
        let mut out = [0; 8];
        let call = Call::from([body.word()?, body.word()?, body.word()?]);
        let number = self.make(call, &mut store, &mut out);
        let [first, second, ..] = out;
        if number != 0 {
            return body.answer(number, &[first, second, 0]);
        }
        body.answer(0, &[0, 0])?;
        spans::spans(body, &store, first, second)
    }

    /// What a call left: the reader and the data position.
    fn standing(&self, body: &mut Body<'_>) -> Option<()> {
        let mut out = [0; 8];
        if capi::archthimble_data_position(&self.reader, &mut out) != 0 {
            return None;
        }
        body.expect(&self.reader[..9])?;
        body.expect(&out[..2])
    }
}

pub fn calls(body: &mut Body<'_>) -> Option<()> {
    let mut history = History {
        cluster: body.word()?,
        size: body.word()?,
        list: body.list()?,
        reader: [0; 16],
    };
    let count = body.word()?;
    if count == 0 {
        return None;
    }
    for _ in 0..count {
        history.call(body)?;
        history.standing(body)?;
    }
    Some(())
}
