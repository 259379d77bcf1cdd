// What stops the board whatever it holds: 511 bytes of 128.
use crate::session::{MOST_ROOM, Session};
use crate::show::say_drive;
use terminal::{Out, Write, say};
use wire::Refusal;
use words::meaning;

const START: u8 = 128;

// The least number that stops from every accepted record.
const ENOUGH: usize = 511;

// Bytes that gave the same one after another: the first and the last, counted from 1, and what they
// gave.
#[derive(Clone, Copy)]
struct Range {
    first: usize,
    last: usize,
    gave: Option<Refusal>,
}

impl Range {
    fn say(self, out: &mut Out) {
        let Range { first, last, gave } = self;
        if first < last {
            say!(out, "    bytes {first} to {last}: ");
        } else {
            say!(out, "    byte {first}: ");
        }
        out.say(meaning(gave).as_bytes());
        out.say(b"\n");
    }
}

// The bytes that are given: the last range of them, and the first that was read as an opcode.
#[derive(Clone, Copy)]
struct Stopping {
    range: Option<Range>,
    opcode: Option<usize>,
}

impl Stopping {
    // A byte that gave something: the range goes on, or it is told and another begins.
    fn gave(&mut self, out: &mut Out, k: usize, gave: Option<Refusal>) {
        let last = self.range;
        let first = match last {
            Some(range) if range.gave == gave => range.first,
            Some(range) => {
                range.say(out);
                k
            }
            None => k,
        };
        self.range = Some(Range {
            first,
            last: k,
            gave,
        });
    }

    // A byte is read as an opcode where nothing is half read, and of a bad record nothing is read.
    fn give(&mut self, out: &mut Out, session: &mut Session, k: usize) {
        let mut buffer = [0u8; MOST_ROOM];
        let came = session.run(&[START], &mut buffer);
        let refusal = came.refusal();
        let read = refusal != Some(Refusal::BadRecord);
        if self.opcode.is_none() && session.state.partial.count == 0 && read {
            self.opcode = Some(k);
        }
        session.state = came.state;
        self.gave(out, k, refusal);
    }

    fn say_end(&self, out: &mut Out, session: &Session) {
        if let Some(range) = self.range {
            range.say(out);
        }
        match self.opcode {
            Some(k) => say!(
                out,
                "    byte {k} was the first that was read as an opcode\n    "
            ),
            None => say!(out, "    none was read as an opcode\n    "),
        }
        say_drive(out, &session.state);
        let held = session.state.partial.count > 0;
        let half_read = if held { "a frame" } else { "nothing" };
        say!(out, ", {half_read} half read\n");
    }
}

pub fn stop(out: &mut Out, session: &mut Session) {
    say!(out, "stop: {ENOUGH} bytes of {START}\n");
    let mut stopping = Stopping {
        range: None,
        opcode: None,
    };
    for k in 1..=ENOUGH {
        stopping.give(out, session, k);
    }
    stopping.say_end(out, session);
}
