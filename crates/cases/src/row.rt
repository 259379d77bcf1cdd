// The lines that are compared, and their cells, which are read before anything is done. What is bad
// in one has been said, and the cells behind it are not read.
use crate::cases::{Bad, Case, Frame, Held, Named, Speeds, Write};
use crate::fields::Fields;
use crate::session::{Fault, Session};
use crate::start::start_from;
use command::Message;
use state::State;
use terminal::{Out, Text, Told};

// The kinds of line, by their first words.
#[derive(Clone, Copy, Debug, PartialEq, Eq)]
pub enum Kind {
    Record,
    Frame,
    Case,
    Held,
    Bad,
    Write,
    Speeds,
}

impl Kind {
    pub fn named(word: &[u8]) -> Option<Kind> {
        Some(match word {
            b"record" => Kind::Record,
            b"frame" => Kind::Frame,
            b"case" => Kind::Case,
            b"held" => Kind::Held,
            b"bad" => Kind::Bad,
            b"write" => Kind::Write,
            b"speeds" => Kind::Speeds,
            _ => return None,
        })
    }
}

// The cells of a line that are still to be read.
#[derive(Clone, Copy)]
pub struct Cells<'a, 's> {
    session: &'s Session,
    text: Text<'a>,
}

impl<'a> Cells<'a, '_> {
    // The next cell, up to the next bar or the line's end.
    pub fn cell(&mut self) -> Text<'a> {
        let text = self.text;
        let end = text.find(text.at, b'|').unwrap_or(text.bytes.len());
        self.text.at = end.saturating_add(1);
        text.up_to(end)
    }

    // A record behind the name that it gets.
    pub fn named(&mut self, out: &mut Out) -> Result<(&'a [u8], State), Told> {
        let mut cell = self.cell();
        let name = cell.name();
        let state = start_from(out, self.session, state::power_on(), &mut cell)?;
        Ok((name, state))
    }

    pub fn start(&mut self, out: &mut Out) -> Result<State, Told> {
        self.after(out, state::power_on())
    }

    // A record that the line has behind its first one.
    pub fn after(&mut self, out: &mut Out, before: State) -> Result<State, Told> {
        start_from(out, self.session, before, &mut self.cell())
    }

    // A call, or bytes.
    pub fn call(&mut self, out: &mut Out) -> Result<Fields, Told> {
        Fields::read_from(out, &mut self.cell(), true)
    }

    // What comes back.
    pub fn back(&mut self, out: &mut Out) -> Result<Fields, Told> {
        Fields::read_from(out, &mut self.cell(), false)
    }

    // A command by its name and its values.
    pub fn command(&mut self, out: &mut Out) -> Result<Message, Told> {
        let mut cell = self.cell();
        let place = cell.place();
        let Some(op) = words::opcode_named(cell.name()) else {
            return Err(Fault::NoCommand.tell(out, cell.number, place));
        };
        words::message_from(out, op, &mut cell)
    }
}

// A line that is compared.
#[derive(Clone, Copy)]
pub enum Row<'a> {
    Record(Named<'a>),
    Frame(Frame),
    Case(Case),
    Held(Held),
    Bad(Bad),
    Write(Write),
    Speeds(Speeds),
}

impl<'a> Row<'a> {
    // The cells of a line, from the place that is read next on.
    pub fn read_from(
        out: &mut Out,
        session: &Session,
        kind: Kind,
        text: Text<'a>,
    ) -> Result<Row<'a>, Told> {
        let mut cells = Cells { session, text };
        Ok(match kind {
            Kind::Record => Row::Record(Named::read_from(out, &mut cells)?),
            Kind::Frame => Row::Frame(Frame::read_from(out, &mut cells)?),
            Kind::Case => Row::Case(Case::read_from(out, &mut cells)?),
            Kind::Held => Row::Held(Held::read_from(out, &mut cells)?),
            Kind::Bad => Row::Bad(Bad::read_from(out, &mut cells)?),
            Kind::Write => Row::Write(Write::read_from(out, &mut cells)?),
            Kind::Speeds => Row::Speeds(Speeds::read_from(out, &mut cells)?),
        })
    }

    // Whether what the line gives, which is written, differs from what it expects.
    pub fn differs(&self, out: &mut Out, session: &Session) -> bool {
        match self {
            Row::Record(row) => row.differs(out),
            Row::Frame(row) => row.differs(out, session),
            Row::Case(row) => row.differs(out),
            Row::Held(row) => row.differs(out),
            Row::Bad(row) => row.differs(out),
            Row::Write(row) => row.differs(out),
            Row::Speeds(row) => row.differs(out),
        }
    }

    // The record that `then` names on the next line.
    pub fn then(&self) -> State {
        match self {
            Row::Record(row) => row.same,
            Row::Frame(_) => state::power_on(),
            Row::Case(row) => row.after,
            Row::Held(row) => row.after,
            Row::Bad(row) => row.good,
            Row::Write(row) => row.after,
            Row::Speeds(row) => row.state,
        }
    }
}
