// The fields of a line: names in braces, and what is written for them. Bytes are written as code,
// and a dash where there are none; a place and a count after a name of the first three pick some of
// them, as in {answer 2 3}.
//
//     sent     the bytes of the last act
//     before   those given before it, since power-on
//     answer   the bytes that came back
//     value    the last command that had a name, as a value
//     modes    the modes that it is for
//     hex      the opcode of the last act that gave bytes, in hexadecimal
//     rest     what the row has after its bar
//     written  the writer's number for the last command that had a name
//     number   the number that came back from the last act
//     length   how many bytes came back
//     room     the length of the buffers that are lent
//     stop     the byte of a run of 128s that is read as an opcode
//     motors   whether the motors are off
//     was      the mode before the last act
//     mode     the mode after it
use crate::page::{Fault, Page, say_fault};
use command::Command;
use state::State;
use std::fmt;
use terminal::{Out, Text, Write, say};
use wire::Refusal;
use words::{Mode, Value};

#[derive(Clone, Copy, Debug, PartialEq, Eq)]
enum Field {
    Bytes(Bytes),
    Alone(Alone),
}

// The fields that are bytes.
#[derive(Clone, Copy, Debug, PartialEq, Eq)]
enum Bytes {
    Sent,
    Before,
    Answer,
}

// The fields that stand alone between their braces.
#[derive(Clone, Copy, Debug, PartialEq, Eq)]
enum Alone {
    Value,
    Modes,
    Hex,
    Rest,
    Written,
    Number,
    Length,
    Room,
    Stop,
    Motors,
    Was,
    Mode,
}

impl Field {
    fn named(word: &[u8]) -> Option<Field> {
        Some(match word {
            b"sent" => Field::Bytes(Bytes::Sent),
            b"before" => Field::Bytes(Bytes::Before),
            b"answer" => Field::Bytes(Bytes::Answer),
            b"value" => Field::Alone(Alone::Value),
            b"modes" => Field::Alone(Alone::Modes),
            b"hex" => Field::Alone(Alone::Hex),
            b"rest" => Field::Alone(Alone::Rest),
            b"written" => Field::Alone(Alone::Written),
            b"number" => Field::Alone(Alone::Number),
            b"length" => Field::Alone(Alone::Length),
            b"room" => Field::Alone(Alone::Room),
            b"stop" => Field::Alone(Alone::Stop),
            b"motors" => Field::Alone(Alone::Motors),
            b"was" => Field::Alone(Alone::Was),
            b"mode" => Field::Alone(Alone::Mode),
            _ => return None,
        })
    }
}

// As many bytes from a place on as a count says, or as there are.
fn part(bytes: &[u8], place: usize, count: usize) -> &[u8] {
    let rest = &bytes[place.min(bytes.len())..];
    &rest[..count.min(rest.len())]
}

// All of them, or those that a place and a count pick; a place alone picks none.
fn say_picked(out: &mut Out, bytes: &[u8], text: &mut Text<'_>) {
    let Ok(numbers) = text.numbers(out) else {
        return;
    };
    let bytes = match numbers.as_slice() {
        [] => bytes,
        [_] => b"",
        [place, count, ..] => part(bytes, usize::from(*place), usize::from(*count)),
    };
    if bytes.is_empty() {
        out.say(b"-");
    } else {
        out.say(b"`");
        out.say_joined(bytes, b" ");
        out.say(b"`");
    }
}

// The fields that are bytes.
fn say_bytes(out: &mut Out, page: &Page, field: Bytes, text: &mut Text<'_>) {
    let given = page.given.as_slice();
    let (before, sent) = given.split_at(page.from.min(given.len()));
    let bytes = match field {
        Bytes::Sent => sent,
        Bytes::Before => before,
        Bytes::Answer => page.answer(),
    };
    say_picked(out, bytes, text);
}

fn say_value(out: &mut Out, page: &Page) {
    match page.value {
        Some(message) => {
            out.say(b"`");
            Value(message).say(out);
            out.say(b"`");
        }
        None => out.say(b"-"),
    }
}

// The modes that a command is for.
#[derive(Clone, Copy)]
struct Modes(Command);

impl fmt::Display for Modes {
    fn fmt<W: fmt::Write>(&self, f: &mut fmt::Formatter<W>) -> fmt::Result {
        let mut between = "";
        for mode in [command::OFF, command::PASSIVE, command::SAFE, command::FULL] {
            if command::allowed(self.0, mode) {
                write!(f, "{between}{}", Mode(mode))?;
                between = ", ";
            }
        }
        Ok(())
    }
}

// A mode by its name. A field of one that has none is left empty.
fn say_mode(out: &mut Out, mode: u8) {
    if mode <= command::FULL {
        say!(out, "{}", Mode(mode));
    }
}

// Motors are off where there is no wheel order and all three duties are 0.
fn motors_off(state: &State) -> bool {
    state.motors.order == state::NO_ORDER && state.motors.duties == [0u8; 3]
}

// A run over 128s ends with the frame that is half read, and the next byte is an opcode; where
// nothing is half read, the first byte is.
fn to_opcode(state: &State) -> usize {
    if state.partial.count == 0 {
        return 1;
    }
    let mut buffer = [0u8; 64];
    let ran = board::run(*state, &[128u8; 511], &[0u8; 40], &mut buffer);
    ran.read.saturating_add(1)
}

// A field that stands alone between its braces.
fn say_alone(out: &mut Out, page: &Page, field: Alone, rest: &[u8]) {
    match field {
        Alone::Value => say_value(out, page),
        Alone::Modes => say!(out, "{}", Modes(page.command)),
        Alone::Hex => say!(out, "`0x{:02X}`", page.opcode),
        Alone::Rest => out.say(rest),
        Alone::Written => say!(out, "{}", words::number(page.written.err())),
        Alone::Number => say!(out, "{}", words::number(page.refusal())),
        Alone::Length => say!(out, "{}", page.answer().len()),
        Alone::Room => say!(out, "{}", page.room),
        Alone::Stop => say!(out, "{}", to_opcode(&page.state)),
        Alone::Motors => out.say(if motors_off(&page.state) {
            b"yes"
        } else {
            b"no"
        }),
        Alone::Was => say_mode(out, page.was),
        Alone::Mode => say_mode(out, page.state.mode),
    }
}

// A field by its name.
fn say_field(out: &mut Out, page: &Page, mut text: Text<'_>, rest: &[u8]) {
    let (start, name) = match text.word() {
        Some(word) => (word.start, word.bytes),
        None => (text.bytes.len(), &b""[..]),
    };
    match Field::named(name) {
        Some(Field::Bytes(field)) => say_bytes(out, page, field, &mut text),
        Some(Field::Alone(field)) if text.ends(out).is_ok() => say_alone(out, page, field, rest),
        Some(Field::Alone(_)) => (),
        None => say_fault(out, &text, start, Fault::NoField),
    }
}

// A line with its fields filled in, from its place on. They are found by place and not by `split`,
// since what is wrong in one is told by its place in the whole line.
pub fn fill(out: &mut Out, page: &Page, text: Text<'_>, rest: &[u8]) {
    let mut at = text.at.min(text.bytes.len());
    while let Some(open) = text.find(at, b'{') {
        out.say(&text.bytes[at..open]);
        let Some(close) = text.find(open, b'}') else {
            say_fault(out, &text, open, Fault::OpenBrace);
            at = text.bytes.len();
            break;
        };
        let inner = Text {
            at: open + 1,
            ..text
        };
        say_field(out, page, inner.up_to(close), rest);
        at = close + 1;
    }
    out.say(&text.bytes[at..]);
    out.say(b"\n");
}
