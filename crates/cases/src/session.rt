// What lines of the input set for those after them, the named records; how many lines were
// compared; and what is said of a line that cannot be read.
use arrayvec::ArrayVec;
use state::State;
use std::fmt;
use std::fmt::Write;
use terminal::{Out, Told, Where, say};

// The most records by name, and the bytes of their names with a blank behind each. `then` and
// `before` are two more of 32, and of 512 bytes.
const RECORDS: usize = 30;

const NAMES: usize = 500;

// A record by name. Its name lacks what had no room.
#[derive(Drop)]
struct Named {
    name: ArrayVec<u8, NAMES>,
    state: State,
}

impl Default for Named {
    fn default() -> Named {
        Named {
            name: ArrayVec::new(),
            state: state::power_on(),
        }
    }
}

// The records by name, from `off` on, which is as at power-on; the room that is left for names; the
// record that the last line expects after its call; how many lines were compared, and how many of
// them differ.
#[derive(Drop)]
pub struct Session {
    records: ArrayVec<Named, RECORDS>,
    room: usize,
    pub then: State,
    lines: usize,
    differ: usize,
}

// What is wrong with a line.
#[derive(Clone, Copy, Debug, PartialEq, Eq)]
pub enum Fault {
    NoRecord,
    NoByte,
    NoCommand,
    NoKind,
    TooLong,
    NoInput,
}

impl fmt::Display for Fault {
    fn fmt<W: fmt::Write>(&self, f: &mut fmt::Formatter<W>) -> fmt::Result {
        f.write_str(match self {
            Fault::NoRecord => "no record has this name",
            Fault::NoByte => "a byte is at most 255",
            Fault::NoCommand => "this is no command",
            Fault::NoKind => "this is no kind of line",
            Fault::TooLong => "the line is longer than 1024 bytes",
            Fault::NoInput => "after this line the input could not be read",
        })
    }
}

impl Fault {
    pub fn tell(self, out: &mut Out, line: usize, place: usize) -> Told {
        say!(out, "{}{self}\n", Where { line, place });
        Told
    }
}

impl Session {
    pub fn new() -> Session {
        let mut session = Session {
            records: ArrayVec::new(),
            room: NAMES,
            then: state::power_on(),
            lines: 0,
            differ: 0,
        };
        session.define(b"off", state::power_on());
        session
    }

    // A record under a name. Past the most records it is not kept, nor is what of its name has no
    // room; where nothing of the name has, any name that is not known is taken for it.
    pub fn define(&mut self, name: &[u8], state: State) {
        let mut record = Named {
            name: ArrayVec::new(),
            state,
        };
        let kept = &name[..name.len().min(self.room)];
        let _ = record.name.try_extend_from_slice(kept);
        self.room = self.room.saturating_sub(name.len().saturating_add(1));
        let _ = self.records.try_push(record);
    }

    // The record of a name, the first where there are more. `before` is, behind a call, the record
    // from which it was given.
    pub fn record(&self, name: &[u8], before: State) -> Option<State> {
        match name {
            b"then" => Some(self.then),
            b"before" => Some(before),
            _ => {
                let mut records = self.records.as_slice().iter();
                let found = records.find(|r| r.name.is_empty() || r.name.as_slice() == name)?;
                Some(found.state)
            }
        }
    }

    // A record by its place, `off` first; power-on where there are fewer.
    pub fn record_at(&self, i: usize) -> State {
        match self.records.as_slice().get(i) {
            Some(record) => record.state,
            None => state::power_on(),
        }
    }

    // One line more that was compared, or that cannot be read, and then differs.
    pub fn count(&mut self, differs: bool) {
        self.lines = self.lines.wrapping_add(1);
        if differs {
            self.differ = self.differ.wrapping_add(1);
        }
    }

    // The last line: how many were compared, and how many differ.
    pub fn say_counts(&self, out: &mut Out) {
        let (lines, differ) = (self.lines, self.differ);
        say!(out, "{lines} lines compared, {differ} differ\n");
    }
}
