// One record of a file of calls: a setting or a call, read as docs/CALLS.md lays it out.
use std::fmt;

// The most bytes of a run, and of the buffer that is lent.
pub const MOST: usize = 1024;

// Why a file is performed no further: what is wrong with a record, or that no more can be read.
#[derive(Clone, Copy, Debug, PartialEq, Eq)]
pub enum Fault {
    UnknownKind,
    CutShort,
    LargeFlags,
    LongRun,
    LargeRoom,
    Unreadable,
}

impl fmt::Display for Fault {
    fn fmt<W: fmt::Write>(&self, f: &mut fmt::Formatter<W>) -> fmt::Result {
        f.write_str(match self {
            Fault::UnknownKind => "unknown kind",
            Fault::CutShort => "cut short",
            Fault::LargeFlags => "flags above 7",
            Fault::LongRun => "run above 1024",
            Fault::LargeRoom => "room above 1024",
            Fault::Unreadable => "standard input cannot be read",
        })
    }
}

// A setting, which holds for the calls after it, or a call. Long bodies stay where they were read.
#[derive(Clone, Copy)]
pub enum Record<'a> {
    Image(&'a [u8; 40]),
    Room(usize),
    State(&'a [u8; 602]),
    Call(Call<'a>),
}

// A call of a file; a report's flags are bits of a byte here.
#[derive(Clone, Copy)]
pub enum Call<'a> {
    Byte(u8),
    Report {
        drop: bool,
        cliff: bool,
        charger: bool,
    },
    Tick,
    SongEnd,
    Run(&'a [u8]),
    Message(&'a [u8; 40]),
}

// What is left of the bytes that are read.
#[derive(Clone, Copy)]
pub struct Reader<'a> {
    pub rest: &'a [u8],
}

impl<'a> Reader<'a> {
    fn slice(&mut self, size: usize) -> Result<&'a [u8], Fault> {
        let (part, rest) = self.rest.split_at_checked(size).ok_or(Fault::CutShort)?;
        self.rest = rest;
        Ok(part)
    }

    fn array<const N: usize>(&mut self) -> Result<&'a [u8; N], Fault> {
        let (part, rest) = self.rest.split_first_chunk::<N>().ok_or(Fault::CutShort)?;
        self.rest = rest;
        Ok(part)
    }

    fn byte(&mut self) -> Result<u8, Fault> {
        let &[b] = self.array::<1>()?;
        Ok(b)
    }

    fn word(&mut self) -> Result<usize, Fault> {
        let &bytes = self.array::<2>()?;
        Ok(usize::from(u16::from_be_bytes(bytes)))
    }

    fn report(&mut self) -> Result<Call<'a>, Fault> {
        let flags = self.byte()?;
        if flags > 7 {
            return Err(Fault::LargeFlags);
        }
        Ok(Call::Report {
            drop: flags & 1 != 0,
            cliff: flags & 2 != 0,
            charger: flags & 4 != 0,
        })
    }

    // A run's length is judged before its bytes are there.
    fn run(&mut self) -> Result<Call<'a>, Fault> {
        let size = self.word()?;
        if size > MOST {
            return Err(Fault::LongRun);
        }
        Ok(Call::Run(self.slice(size)?))
    }

    fn room(&mut self) -> Result<usize, Fault> {
        let room = self.word()?;
        if room > MOST {
            return Err(Fault::LargeRoom);
        }
        Ok(room)
    }

    // The next record, by its kind.
    pub fn record(&mut self) -> Result<Record<'a>, Fault> {
        Ok(match self.byte()? {
            1 => Record::Call(Call::Byte(self.byte()?)),
            2 => Record::Call(self.report()?),
            3 => Record::Call(Call::Tick),
            4 => Record::Call(Call::SongEnd),
            5 => Record::Image(self.array()?),
            129 => Record::Call(self.run()?),
            130 => Record::Room(self.room()?),
            131 => Record::State(self.array()?),
            132 => Record::Call(Call::Message(self.array()?)),
            _ => return Err(Fault::UnknownKind),
        })
    }
}
