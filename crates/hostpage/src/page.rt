// What is carried from line to line, what can be wrong with a line, and how a byte is found in it.
ghost use Rattle.std.specs.Prelude.{◌≤◌, ◌<◌, length, IfSome};

use arrayvec::ArrayVec;
use command::{Command, Message};
use state::State;
use std::fmt;
use std::fmt::Write;
use terminal::{Out, Text, Where, say};
use wire::Refusal;

// The most bytes of a line.
pub const LONGEST: usize = 2048;

// The longest buffer that is lent.
pub const ROOM: usize = 1024;

pub type Answer = ArrayVec<u8, ROOM>;

// The layout of rows: its line, which is kept whole, so that places are those of the template.
#[derive(Drop)]
pub struct Form {
    pub line: ArrayVec<u8, 256>,
    pub number: usize,
}

// The record, the image and the room that are lent with each call; the layout of rows; all bytes
// given since power-on; and what came of the acts. Text goes to `Out`, which stands beside it.
#[derive(Drop)]
pub struct Page {
    pub state: State,
    pub image: [u8; 40],
    pub room: usize,
    pub form: Option<Form>,
    pub given: ArrayVec<u8, 512>,
    // The last command that had a name, and what the writer gave for it.
    pub command: Command,
    pub written: Result<(), Refusal>,
    // The opcode of the last act that gave bytes, and that act as a value, where it had a name.
    pub opcode: u8,
    pub value: Option<Message>,
    // Of the last act: the mode before it, as a record has it, which may be one without a name; the
    // place in `given` of its first byte; and what came back.
    pub was: u8,
    pub from: usize,
    pub came: Result<Answer, Refusal>,
}

impl Page {
    // Before the template's first line: the record is as at power-on, and any answer has room. Byte
    // i of the image is i, so that an answer shows which places it came from.
    pub fn new() -> Page {
        Page {
            state: state::power_on(),
            image: *b"\x00\x01\x02\x03\x04\x05\x06\x07\x08\x09\x0a\x0b\x0c\x0d\x0e\x0f\x10\x11\x12\
            \x13\x14\x15\x16\x17\x18\x19\x1a\x1b\x1c\x1d\x1e\x1f\x20\x21\x22\x23\x24\x25\x26\x27",
            room: ROOM,
            form: None,
            given: ArrayVec::new(),
            command: Command::Start,
            written: Ok(()),
            opcode: 0,
            value: None,
            was: command::OFF,
            from: 0,
            came: Ok(Answer::new()),
        }
    }

    // Why the last act was refused.
    pub fn refusal(&self) -> Option<Refusal> {
        match self.came {
            Ok(_) => None,
            Err(refusal) => Some(refusal),
        }
    }

    // The bytes that came back from the last act.
    pub fn answer(&self) -> &[u8] {
        match &self.came {
            Ok(answer) => answer.as_slice(),
            Err(_) => b"",
        }
    }
}

// What can be wrong with a line.
#[derive(Clone, Copy, Debug, PartialEq, Eq)]
pub enum Fault {
    NoDirective,
    NoField,
    OpenBrace,
    NoForm,
    LongForm,
    LongLine,
    EndsBefore,
    ManyGiven,
    NotRead,
}

impl fmt::Display for Fault {
    fn fmt<W: fmt::Write>(&self, f: &mut fmt::Formatter<W>) -> fmt::Result {
        f.write_str(match self {
            Fault::NoDirective => "this is none of @#, @do, @form and @row",
            Fault::NoField => "this is no field",
            Fault::OpenBrace => "the brace is not closed",
            Fault::NoForm => "no @form was given before this row",
            Fault::LongForm => "a layout has at most 256 bytes",
            Fault::LongLine => "the line has more than 2048 bytes and is left out",
            Fault::EndsBefore => "a frame ends before the last of the bytes",
            Fault::ManyGiven => "more than 512 bytes since power-on are not kept",
            Fault::NotRead => "the template cannot be read further",
        })
    }
}

// A message with its line and place.
pub fn say_fault(out: &mut Out, text: &Text<'_>, place: usize, fault: Fault) {
    let line = text.number;
    say!(out, "{}{fault}\n", Where { line, place });
}
