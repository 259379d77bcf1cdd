// The calls: what is lent to them, and what they give.
use crate::layout::fields_of;
use crate::record::{Call, MOST};
use board::Answer;
use state::State;
use wire::Refusal;

// What a call gives, but for the record: the length of its answer or why it is refused, and how
// many bytes it read.
#[derive(Clone, Copy)]
pub struct Given {
    pub sent: Result<usize, Refusal>,
    pub read: usize,
}

impl Given {
    // Its number in docs/RULES.md.
    pub fn number(&self) -> u8 {
        words::number(self.sent.err())
    }

    pub fn length(&self) -> usize {
        self.sent.unwrap_or(0)
    }
}

// The record after a call takes the place of the one before it.
fn gave(state: &mut State, answer: Answer, read: usize) -> Given {
    *state = answer.state;
    Given {
        sent: answer.sent,
        read,
    }
}

// A byte for a bad record is not read.
fn byte(state: &mut State, b: u8, image: &[u8; 40], buffer: &mut [u8]) -> Given {
    let answer = board::byte(*state, b, image, buffer);
    let read = usize::from(answer.sent != Err(Refusal::BadRecord));
    gave(state, answer, read)
}

fn report(state: &mut State, drop: bool, cliff: bool, charger: bool) -> Given {
    gave(state, board::safety_report(*state, drop, cliff, charger), 0)
}

fn tick(state: &mut State, image: &[u8; 40], buffer: &mut [u8]) -> Given {
    gave(state, board::tick(*state, image, buffer), 0)
}

fn song_end(state: &mut State) -> Given {
    gave(state, board::song_end(*state), 0)
}

fn run(state: &mut State, bytes: &[u8], image: &[u8; 40], buffer: &mut [u8]) -> Given {
    let ran = board::run(*state, bytes, image, buffer);
    gave(state, ran.answer, ran.read)
}

// The host-side writer reads and changes no record.
fn write(body: &[u8; 40], buffer: &mut [u8]) -> Given {
    Given {
        sent: command::write(command::message_of(fields_of(body)), buffer),
        read: 0,
    }
}

// What is lent to a call: the sensor image, and the buffer, as many of its bytes as the room says.
#[derive(Clone, Copy)]
pub struct Setup {
    pub image: [u8; 40],
    pub room: usize,
    buffer: [u8; MOST],
}

impl Setup {
    // Before the first setting.
    pub fn new() -> Setup {
        Setup {
            image: [0u8; 40],
            room: 832,
            buffer: [0u8; MOST],
        }
    }

    pub fn perform(&mut self, state: &mut State, call: Call<'_>) -> Given {
        let image = &self.image;
        let space = &mut self.buffer[..];
        let buffer = &mut space[..self.room.min(MOST)];
        match call {
            Call::Byte(b) => byte(state, b, image, buffer),
            Call::Report {
                drop,
                cliff,
                charger,
            } => report(state, drop, cliff, charger),
            Call::Tick => tick(state, image, buffer),
            Call::SongEnd => song_end(state),
            Call::Run(bytes) => run(state, bytes, image, buffer),
            Call::Message(body) => write(body, buffer),
        }
    }

    // The bytes that a call answered.
    pub fn answer(&self, given: Given) -> &[u8] {
        &self.buffer[..given.length().min(MOST)]
    }

    // They are set to 0 again, so that every call gets the same buffer.
    pub fn clear(&mut self, given: Given) {
        let buffer = &mut self.buffer[..];
        buffer[..given.length().min(MOST)].fill(0);
    }
}
