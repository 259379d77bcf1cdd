// The acts: what is done to the record between two lines of the page.
use crate::page::{Answer, Fault, Page, ROOM, say_fault};
use terminal::{Out, Text};
use wire::Refusal;

// The acts by their names.
#[derive(Clone, Copy, Debug, PartialEq, Eq)]
enum Act {
    // A command of an opcode, with its values.
    Command(u8),
    Numbers(Numbers),
    Alone(Alone),
    // A part of the record, set by hand.
    Part,
}

// The acts that take numbers.
#[derive(Clone, Copy, Debug, PartialEq, Eq)]
enum Numbers {
    Bytes,
    Image,
    Room,
    Opcode,
}

// The acts that stand alone.
#[derive(Clone, Copy, Debug, PartialEq, Eq)]
enum Alone {
    PowerOn,
    Tick,
    WheelDrop,
    Cliff,
    Charger,
}

impl Act {
    fn named(word: &[u8]) -> Act {
        if let Some(op) = words::opcode_named(word) {
            return Act::Command(op);
        }
        match word {
            b"bytes" => Act::Numbers(Numbers::Bytes),
            b"image" => Act::Numbers(Numbers::Image),
            b"room" => Act::Numbers(Numbers::Room),
            b"opcode" => Act::Numbers(Numbers::Opcode),
            b"power-on" => Act::Alone(Alone::PowerOn),
            b"tick" => Act::Alone(Alone::Tick),
            b"wheel-drop" => Act::Alone(Alone::WheelDrop),
            b"cliff" => Act::Alone(Alone::Cliff),
            b"charger" => Act::Alone(Alone::Charger),
            _ => Act::Part,
        }
    }
}

// What a call gives is kept; the answer is at the start of what was lent.
fn keep(page: &mut Page, answer: board::Answer, lent: &[u8]) {
    page.state = answer.state;
    page.came = answer.sent.map(|size| {
        let mut bytes = Answer::new();
        // An answer has room for all that is lent.
        let _ = bytes.try_extend_from_slice(&lent[..size.min(lent.len())]);
        bytes
    });
}

// A run over these bytes, and how many of them were read.
fn run(page: &mut Page, bytes: &[u8]) -> usize {
    let mut buffer = [0u8; ROOM];
    let lent = &mut buffer[..page.room.min(ROOM)];
    let ran = board::run(page.state, bytes, &page.image, lent);
    keep(page, ran.answer, lent);
    ran.read
}

// One run over these bytes, which are kept behind those that were given before them. It is to read
// all of them, save that a bad record reads none.
fn give(out: &mut Out, page: &mut Page, text: &Text<'_>, bytes: &[u8]) {
    if page.given.try_extend_from_slice(bytes).is_err() {
        say_fault(out, text, 0, Fault::ManyGiven);
        return;
    }
    let read = run(page, bytes);
    if read != bytes.len() && !matches!(page.came, Err(Refusal::BadRecord)) {
        say_fault(out, text, 0, Fault::EndsBefore);
    }
}

// The command of an opcode, with its values, written by the host-side writer and given to the
// board. What the writer refuses is not sent, and the refusal is the writer's.
fn send(out: &mut Out, page: &mut Page, op: u8, text: &mut Text<'_>) {
    let Ok(message) = words::message_from(out, op, text) else {
        return;
    };
    page.opcode = op;
    page.value = Some(message);
    page.command = message.command;
    let mut buffer = [0u8; ROOM];
    let lent = &mut buffer[..page.room.min(ROOM)];
    match command::write(message, lent) {
        Ok(size) => {
            page.written = Ok(());
            give(out, page, text, &lent[..size.min(lent.len())]);
        }
        Err(refusal) => {
            page.written = Err(refusal);
            page.came = Err(refusal);
        }
    }
}

// Where a number is missing it is 0, and what stands behind those that are asked for is not looked
// at.
fn with_numbers(out: &mut Out, page: &mut Page, act: Numbers, text: &mut Text<'_>) {
    let Ok(values) = text.numbers(out) else {
        return;
    };
    let mut numbers = values.as_slice().iter().copied();
    let first = numbers.next().unwrap_or(0);
    match act {
        Numbers::Bytes => {
            page.opcode = first;
            page.value = None;
            give(out, page, text, values.as_slice());
        }
        Numbers::Image => {
            if let Some(byte) = page.image.get_mut(usize::from(first)) {
                *byte = numbers.next().unwrap_or(0);
            }
        }
        Numbers::Room => page.room = usize::from(first),
        Numbers::Opcode => {
            let mut nothing = Text {
                bytes: b"",
                number: text.number,
                at: 0,
            };
            send(out, page, first, &mut nothing);
        }
    }
}

// A fresh start, with room for any answer.
fn power_on(page: &mut Page) {
    page.state = state::power_on();
    page.room = ROOM;
    page.from = 0;
    page.given.clear();
}

// A fresh start, a tick, or a safety report of one flag alone.
fn call(page: &mut Page, act: Alone) {
    let state = page.state;
    let mut buffer = [0u8; ROOM];
    let lent = &mut buffer[..page.room.min(ROOM)];
    let answer = match act {
        Alone::PowerOn => return power_on(page),
        Alone::Tick => board::tick(state, &page.image, lent),
        Alone::WheelDrop => board::safety_report(state, true, false, false),
        Alone::Cliff => board::safety_report(state, false, true, false),
        Alone::Charger => board::safety_report(state, false, false, true),
    };
    keep(page, answer, lent);
}

// A part of the record, set by hand. What a bad number leaves in it is kept too.
fn set_part(out: &mut Out, page: &mut Page, text: &mut Text<'_>) {
    let _ = words::set_part(out, &mut page.state, text);
}

// One act. What came of the one before it is forgotten, save the last command that had a name. A
// word behind an act that stands alone is told, and then that act is told to be no part.
fn perform_one(out: &mut Out, page: &mut Page, mut text: Text<'_>) {
    page.was = page.state.mode;
    page.from = page.given.as_slice().len();
    page.came = Ok(Answer::new());
    let mut values = text;
    match Act::named(values.name()) {
        Act::Command(op) => send(out, page, op, &mut values),
        Act::Numbers(act) => with_numbers(out, page, act, &mut values),
        Act::Alone(act) if values.ends(out).is_ok() => call(page, act),
        Act::Alone(_) | Act::Part => set_part(out, page, &mut text),
    }
}

// The acts of a line, from its place on. They are found by place and not by `split`, since what is
// wrong in one is told by its place in the whole line.
pub fn perform(out: &mut Out, page: &mut Page, text: Text<'_>) {
    let mut at = text.at;
    while at < text.bytes.len() {
        let end = text.find(at, b';').unwrap_or(text.bytes.len());
        let act = Text { at, ..text };
        perform_one(out, page, act.up_to(end));
        at = end + 1;
    }
}
