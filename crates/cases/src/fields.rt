// The words and numbers of a cell that says a call, or what comes back from one.
use crate::give::{Call, Flags, Given, ROOM};
use drive::Speeds;
use terminal::{Bytes, Out, Text, Told};
use wire::Refusal;

// What a refusal has in place of speeds.
const NO_SPEEDS: Speeds = Speeds {
    right: 0,
    left: 0,
    capped: false,
};

// The words of a cell. Those before `Wrote` have a number behind them.
#[derive(Clone, Copy, Debug, PartialEq, Eq)]
enum Field {
    Read,
    Right,
    Left,
    Room,
    Wrote,
    Capped,
    Drop,
    Cliff,
    Charger,
    Kind(Kind),
}

// The kinds of call; a run has no word.
#[derive(Clone, Copy, Debug, PartialEq, Eq)]
enum Kind {
    Byte,
    Tick,
    SongEnd,
    Report,
    Run,
}

// Of a call its kind, its bytes, the flags of a report and the room that is lent. Of what comes
// back the number, how many bytes a run read, the bytes of an answer, and wheel speeds. `lists`:
// numbers are bytes from here on.
#[derive(Clone, Copy)]
pub struct Fields {
    kind: Kind,
    pub bytes: Bytes,
    flags: Flags,
    pub room: usize,
    pub number: usize,
    read: usize,
    speeds: Speeds,
    lists: bool,
}

impl Field {
    fn named(word: &[u8]) -> Option<Field> {
        Some(match word {
            b"read" => Field::Read,
            b"right" => Field::Right,
            b"left" => Field::Left,
            b"room" => Field::Room,
            b"wrote" => Field::Wrote,
            b"capped" => Field::Capped,
            b"drop" => Field::Drop,
            b"cliff" => Field::Cliff,
            b"charger" => Field::Charger,
            b"byte" => Field::Kind(Kind::Byte),
            b"tick" => Field::Kind(Kind::Tick),
            b"song-end" => Field::Kind(Kind::SongEnd),
            b"report" => Field::Kind(Kind::Report),
            _ => return None,
        })
    }
}

// A number with a sign, as its sixteen bits.
fn sixteen(out: &mut Out, text: &mut Text<'_>) -> Result<usize, Told> {
    let v = text.signed(out, 32767)?;
    Ok(usize::from(v.cast_unsigned()))
}

impl Fields {
    // A run over no bytes with room enough; or nothing that comes back.
    fn new(lists: bool) -> Fields {
        Fields {
            kind: Kind::Run,
            bytes: Bytes::new(),
            flags: Flags {
                drop: false,
                cliff: false,
                charger: false,
            },
            room: ROOM,
            number: 0,
            read: 0,
            speeds: NO_SPEEDS,
            lists,
        }
    }

    // A cell: numbers are bytes from the first on, or from `wrote` on.
    pub fn read_from(out: &mut Out, text: &mut Text<'_>, lists: bool) -> Result<Fields, Told> {
        let mut fields = Fields::new(lists);
        for _ in 0..=text.bytes.len() {
            let Some(word) = text.peek() else { break };
            match Field::named(word.bytes) {
                Some(field) => {
                    text.at = word.end();
                    fields.set(out, field, text)?;
                }
                None => fields.take_number(out, text)?,
            }
        }
        Ok(fields)
    }

    // A word, and the number behind it.
    fn set(&mut self, out: &mut Out, field: Field, text: &mut Text<'_>) -> Result<(), Told> {
        match field {
            Field::Read => self.read = sixteen(out, text)?,
            Field::Right => self.speeds.right = text.signed(out, 32767)?,
            Field::Left => self.speeds.left = text.signed(out, 32767)?,
            Field::Room => self.room = sixteen(out, text)?,
            Field::Wrote => self.lists = true,
            Field::Capped => self.speeds.capped = true,
            Field::Drop => self.flags.drop = true,
            Field::Cliff => self.flags.cliff = true,
            Field::Charger => self.flags.charger = true,
            Field::Kind(kind) => self.kind = kind,
        }
        Ok(())
    }

    // A number that stands for itself, or bytes up to the cell's end.
    fn take_number(&mut self, out: &mut Out, text: &mut Text<'_>) -> Result<(), Told> {
        if self.lists {
            self.bytes = text.numbers(out)?;
        } else {
            self.number = sixteen(out, text)?;
        }
        Ok(())
    }

    // The call that the cell says; a byte that is not said is 0.
    pub fn call(&self) -> Call<'_> {
        match self.kind {
            Kind::Run => Call::Run(self.bytes.as_slice()),
            Kind::Byte => Call::Byte(self.bytes.as_slice().first().copied().unwrap_or(0)),
            Kind::Tick => Call::Tick,
            Kind::SongEnd => Call::SongEnd,
            Kind::Report => Call::Report(self.flags),
        }
    }

    // Whether the number, the bytes read and the answer came back; bytes behind it that were 0
    // still are.
    pub fn fit(&self, given: &Given) -> bool {
        self.fit_number(given.number())
            && self.read == given.read
            && wire::same(self.bytes.as_slice(), given.wrote())
            && given.rest().iter().all(|&b| b == 0)
    }

    pub fn fit_number(&self, number: u8) -> bool {
        self.number == usize::from(number)
    }

    pub fn fit_speeds(&self, given: Result<Speeds, Refusal>) -> bool {
        match given {
            Ok(speeds) => self.fit_number(0) && self.speeds == speeds,
            Err(refusal) => self.fit_number(u8::from(refusal)) && self.speeds == NO_SPEEDS,
        }
    }
}
