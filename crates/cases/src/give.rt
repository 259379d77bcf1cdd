// The board's calls, as a line says them, and what comes back.
ghost use Rattle.std.specs.Prelude.{◌≤◌};

use board::Ran;
use command::Message;
use state::State;
use terminal::{Out, Write, say};
use wire::Refusal;

// The bytes that a call may write over, and how many of them are lent where a line says nothing.
const BUFFER: usize = 512;

pub const ROOM: usize = 300;

// Packets 7 to 34: packet 29 is 2 25 and packet 13 is 0, as in the example that the Roomba 500 Open
// Interface prints; every other byte is its place and 100.
const IMAGE: [u8; 40] =
    *b"defghi\x00klmnopqrstuvwxyz{|}~\x7f\x80\x81\x02\x19\x84\x85\x86\x87\x88\x89\x8a\x8b";

// The flags of a report: words of a cell here, and no program reads them as another does.
#[derive(Clone, Copy, Debug, PartialEq, Eq)]
pub struct Flags {
    pub drop: bool,
    pub cliff: bool,
    pub charger: bool,
}

// A call, with what it is given beside the record. The performer has calls of its own: those of a
// file carry an image of the file's, and a message.
#[derive(Clone, Copy)]
pub enum Call<'a> {
    Run(&'a [u8]),
    Byte(u8),
    Tick,
    SongEnd,
    Report(Flags),
}

// What a call gives, with the whole buffer.
#[derive(Clone, Copy)]
pub struct Given {
    pub sent: Result<usize, Refusal>,
    pub read: usize,
    buffer: [u8; BUFFER],
    pub state: State,
}

impl Given {
    // The number that stands for the answer, 0 where the call is not refused.
    pub fn number(&self) -> u8 {
        words::number(self.sent.err())
    }

    // The bytes of the answer.
    pub fn wrote(&self) -> &[u8] {
        &self.buffer[..self.length()]
    }

    // The bytes behind it.
    pub fn rest(&self) -> &[u8] {
        &self.buffer[self.length()..]
    }

    fn length(&self) -> usize
        ensures { result ≤ 512 }
    {
        self.sent.unwrap_or(0).min(BUFFER)
    }

    // What came back, in the words of the cell that expects it.
    pub fn say(&self, out: &mut Out) {
        let wrote = if self.wrote().is_empty() {
            ""
        } else {
            " wrote "
        };
        if self.read > 0 {
            say!(out, " -> {} read {}{wrote}", self.number(), self.read);
        } else {
            say!(out, " -> {}{wrote}", self.number());
        }
        out.say_joined(self.wrote(), b" ");
    }
}

// Of the calls that read no slice the number of bytes read is 0.
fn perform(state: State, call: Call<'_>, buffer: &mut [u8]) -> Ran {
    let answer = match call {
        Call::Run(bytes) => return board::run(state, bytes, &IMAGE, buffer),
        Call::Byte(b) => board::byte(state, b, &IMAGE, buffer),
        Call::Tick => board::tick(state, &IMAGE, buffer),
        Call::SongEnd => board::song_end(state),
        Call::Report(flags) => board::safety_report(state, flags.drop, flags.cliff, flags.charger),
    };
    Ran { answer, read: 0 }
}

// A call that is lent so much of a buffer.
pub fn give(state: State, call: Call<'_>, room: usize) -> Given {
    let mut buffer = [0u8; BUFFER];
    let Ran { answer, read } = perform(state, call, &mut buffer[..room.min(BUFFER)]);
    Given {
        sent: answer.sent,
        read,
        buffer,
        state: answer.state,
    }
}

// The writer's call, which leaves the record.
pub fn give_writer(state: State, message: Message) -> Given {
    let mut buffer = [0u8; BUFFER];
    let sent = command::write(message, &mut buffer);
    Given {
        sent,
        read: 0,
        buffer,
        state,
    }
}
