// What each kind of line says, what it gives, written behind it, and whether that differs from what
// it expects.
use crate::fields::Fields;
use crate::give::{Call, Flags, ROOM, give, give_writer};
use crate::row::Cells;
use crate::session::Session;
use command::Message;
use state::State;
use std::fmt::Write as _;
use terminal::{Out, Told, say};
use wire::Refusal;

// As many 128s as any held frame owes.
const ENOUGH: [u8; 512] = [128; 512];

// A record by its mode, its wheel order with two numbers, and its duties. A mode or an order that
// is none has no name.
fn say_record(out: &mut Out, state: &State) {
    let motors = state.motors;
    let mode = match state.mode {
        0 => "Off",
        1 => "Passive",
        2 => "Safe",
        3 => "Full",
        _ => "",
    };
    let order = match motors.order {
        state::NO_ORDER => "none",
        state::DRIVE => "Drive",
        state::DIRECT => "Direct",
        _ => "",
    };
    let (first, second) = (motors.first, motors.second);
    say!(out, " -> {mode}, {order} {first} {second}, ");
    out.say_joined(&motors.duties, b" ");
}

// record NAME START | START
#[derive(Clone, Copy)]
pub struct Named<'a> {
    pub name: &'a [u8],
    pub state: State,
    pub same: State,
}

impl<'a> Named<'a> {
    pub fn read_from(out: &mut Out, cells: &mut Cells<'a, '_>) -> Result<Named<'a>, Told> {
        let (name, state) = cells.named(out)?;
        let same = cells.after(out, state)?;
        Ok(Named { name, state, same })
    }

    pub fn differs(&self, out: &mut Out) -> bool {
        say_record(out, &self.state);
        self.state != self.same
    }
}

// frame BYTES | DATA | NUMBERS | RULE: from the first four records, in Off, Passive, Safe and Full.
#[derive(Clone, Copy)]
pub struct Frame {
    call: Fields,
    count: Fields,
    numbers: Fields,
}

impl Frame {
    pub fn read_from(out: &mut Out, cells: &mut Cells<'_, '_>) -> Result<Frame, Told> {
        Ok(Frame {
            call: cells.call(out)?,
            count: cells.back(out)?,
            numbers: cells.call(out)?,
        })
    }

    pub fn differs(&self, out: &mut Out, session: &Session) -> bool {
        let numbers = self.numbers.bytes.as_slice();
        let mut differs = false;
        for i in 0..4 {
            let number = numbers.get(i).copied().unwrap_or(0);
            differs |= self.cut(out, session.record_at(i), number);
        }
        differs
    }

    // The bytes of a frame, and 128s, from a record: the opcode and its data are read, with the
    // number expected, and nothing is held after them.
    fn cut(&self, out: &mut Out, state: State, number: u8) -> bool {
        let mut given = give(state, self.call.call(), self.call.room);
        let mut read = given.read;
        if given.sent == Err(Refusal::Waiting) {
            given = give(given.state, Call::Run(&ENOUGH), ROOM);
            read = read.wrapping_add(given.read);
        }
        say!(out, " -> {} read {read}", given.number());
        let wanted = self.count.number.wrapping_add(1);
        read != wanted || given.number() != number || given.state.partial.count != 0
    }
}

// case START | CALL | BACK | START | RULE: a call from the row's record.
#[derive(Clone, Copy)]
pub struct Case {
    before: State,
    call: Fields,
    back: Fields,
    pub after: State,
}

impl Case {
    pub fn read_from(out: &mut Out, cells: &mut Cells<'_, '_>) -> Result<Case, Told> {
        let before = cells.start(out)?;
        Ok(Case {
            before,
            call: cells.call(out)?,
            back: cells.back(out)?,
            after: cells.after(out, before)?,
        })
    }

    pub fn differs(&self, out: &mut Out) -> bool {
        let given = give(self.before, self.call.call(), self.call.room);
        given.say(out);
        say_record(out, &given.state);
        !self.back.fit(&given) || given.state != self.after
    }
}

// held START | BYTE | BACK | START | RULE: a run over 128s ends with the byte before the one named,
// or with that where it is the first; and one more gives 0.
#[derive(Clone, Copy)]
pub struct Held {
    before: State,
    byte: Fields,
    back: Fields,
    pub after: State,
}

impl Held {
    pub fn read_from(out: &mut Out, cells: &mut Cells<'_, '_>) -> Result<Held, Told> {
        let before = cells.start(out)?;
        Ok(Held {
            before,
            byte: cells.back(out)?,
            back: cells.back(out)?,
            after: cells.after(out, before)?,
        })
    }

    pub fn differs(&self, out: &mut Out) -> bool {
        let ended = give(self.before, Call::Run(&ENOUGH), ROOM);
        let next = give(ended.state, Call::Run(&[128]), ROOM);
        ended.say(out);
        next.say(out);
        let read = self.byte.number.saturating_sub(1).max(1);
        ended.read != read
            || !self.back.fit_number(ended.number())
            || next.number() != 0
            || next.state != self.after
    }
}

// bad START | BACK | START | BACK | RULE: a run over no bytes, a byte, a tick, a song end, a report
// and a run, of a bad record: nothing is written, read or changed. And a run over no bytes, of the
// record beside it.
#[derive(Clone, Copy)]
pub struct Bad {
    state: State,
    back: Fields,
    pub good: State,
    accepted: Fields,
}

impl Bad {
    pub fn read_from(out: &mut Out, cells: &mut Cells<'_, '_>) -> Result<Bad, Told> {
        let state = cells.start(out)?;
        Ok(Bad {
            state,
            back: cells.back(out)?,
            good: cells.after(out, state)?,
            accepted: cells.back(out)?,
        })
    }

    pub fn differs(&self, out: &mut Out) -> bool {
        let calls = [
            Call::Run(&[]),
            Call::Byte(128),
            Call::Tick,
            Call::SongEnd,
            Call::Report(Flags {
                drop: true,
                cliff: true,
                charger: true,
            }),
            Call::Run(&[128, 128]),
        ];
        let mut differs = false;
        for call in calls {
            let given = give(self.state, call, ROOM);
            given.say(out);
            differs |= !self.back.fit(&given) || given.state != self.state;
        }
        let given = give(self.good, Call::Run(&[]), ROOM);
        given.say(out);
        differs || !self.accepted.fit(&given)
    }
}

// write START | COMMAND | BACK | BACK | START | RULE: what was written, if anything, is given to
// the board in one run.
#[derive(Clone, Copy)]
pub struct Write {
    before: State,
    message: Message,
    sent: Fields,
    back: Fields,
    pub after: State,
}

impl Write {
    pub fn read_from(out: &mut Out, cells: &mut Cells<'_, '_>) -> Result<Write, Told> {
        let before = cells.start(out)?;
        Ok(Write {
            before,
            message: cells.command(out)?,
            sent: cells.back(out)?,
            back: cells.back(out)?,
            after: cells.after(out, before)?,
        })
    }

    pub fn differs(&self, out: &mut Out) -> bool {
        let sent = give_writer(self.before, self.message);
        let given = give(self.before, Call::Run(sent.wrote()), ROOM);
        sent.say(out);
        given.say(out);
        say_record(out, &given.state);
        !self.sent.fit(&sent) || !self.back.fit(&given) || given.state != self.after
    }
}

// speeds START | EXACT | BACK | RULE
#[derive(Clone, Copy)]
pub struct Speeds {
    pub state: State,
    back: Fields,
}

impl Speeds {
    // What is exact is for the person who reads.
    pub fn read_from(out: &mut Out, cells: &mut Cells<'_, '_>) -> Result<Speeds, Told> {
        let state = cells.start(out)?;
        let _ = cells.cell();
        let back = cells.back(out)?;
        Ok(Speeds { state, back })
    }

    pub fn differs(&self, out: &mut Out) -> bool {
        let motors = self.state.motors;
        let given = drive::wheel_speeds(motors.order, motors.first, motors.second);
        match given {
            Ok(speeds) => {
                let capped = if speeds.capped { " capped" } else { "" };
                say!(
                    out,
                    " -> 0 right {} left {}{capped}",
                    speeds.right,
                    speeds.left
                );
            }
            Err(refusal) => say!(out, " -> {}", u8::from(refusal)),
        }
        !self.back.fit_speeds(given)
    }
}
