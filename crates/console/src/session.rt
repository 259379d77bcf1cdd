// What a line is read with: the record, the image and the room that are lent with each call, and
// how what comes back is shown. The board is called here and nowhere else.
use board::{Answer, Ran};
use state::State;
use wire::Refusal;

// The longest buffer that is lent, and the one that is lent at first.
pub const MOST_ROOM: usize = 1024;

const FIRST_ROOM: usize = 832;

// Whether a further line is read.
#[derive(Clone, Copy, Debug, PartialEq, Eq)]
pub enum Next {
    Line,
    End,
}

// A safety report. Its flags are words of a line here: no program reads them as another does, and
// the board takes them one by one.
#[derive(Clone, Copy, Debug, PartialEq, Eq)]
pub struct Report {
    pub drop: bool,
    pub cliff: bool,
    pub charger: bool,
}

// A line that is repeated: what the last call that was shown gave, once there is one, and how often
// what came back was what had just been shown.
#[derive(Clone, Copy, Debug, PartialEq, Eq)]
pub struct Repeat {
    last: Option<Option<Refusal>>,
    pub same: usize,
}

// What a console keeps from line to line. Text goes to `Out`, which stands beside it: half of what
// is said needs no session.
#[derive(Clone, Copy)]
pub struct Session {
    pub state: State,
    pub image: [u8; 40],
    pub room: usize,
    // Every byte is shown; answers are shown as bytes.
    pub verbose: bool,
    pub raw: bool,
    pub repeat: Option<Repeat>,
}

// What came back of a call: the record, the answer or why there is none, and how many bytes were
// read.
#[derive(Clone, Copy)]
pub struct Came<'a> {
    pub state: State,
    sent: Result<&'a [u8], Refusal>,
    pub read: usize,
}

impl Repeat {
    pub fn new() -> Repeat {
        Repeat {
            last: None,
            same: 0,
        }
    }
}

impl<'a> Came<'a> {
    fn new(answer: Answer, read: usize, lent: &'a [u8]) -> Came<'a> {
        let sent = match answer.sent {
            Ok(size) => Ok(&lent[..size.min(lent.len())]),
            Err(refusal) => Err(refusal),
        };
        Came {
            state: answer.state,
            sent,
            read,
        }
    }

    // None where the call is done.
    pub fn refusal(&self) -> Option<Refusal> {
        self.sent.err()
    }

    pub fn answer(&self) -> &'a [u8] {
        self.sent.unwrap_or(&[])
    }
}

impl Session {
    pub fn new() -> Session {
        Session {
            state: state::power_on(),
            image: [0u8; 40],
            room: FIRST_ROOM,
            verbose: false,
            raw: false,
            repeat: None,
        }
    }

    fn lent<'a>(&self, buffer: &'a mut [u8; MOST_ROOM]) -> &'a mut [u8] {
        &mut buffer[..self.room.min(MOST_ROOM)]
    }

    pub fn run<'a>(&self, bytes: &[u8], buffer: &'a mut [u8; MOST_ROOM]) -> Came<'a> {
        let lent = self.lent(buffer);
        let Ran { answer, read } = board::run(self.state, bytes, &self.image, lent);
        Came::new(answer, read, lent)
    }

    pub fn tick<'a>(&self, buffer: &'a mut [u8; MOST_ROOM]) -> Came<'a> {
        let lent = self.lent(buffer);
        let answer = board::tick(self.state, &self.image, lent);
        Came::new(answer, 0, lent)
    }

    pub fn report(&self, report: Report) -> Came<'static> {
        let Report {
            drop,
            cliff,
            charger,
        } = report;
        let answer = board::safety_report(self.state, drop, cliff, charger);
        Came::new(answer, 0, &[])
    }

    pub fn song_end(&self) -> Came<'static> {
        Came::new(board::song_end(self.state), 0, &[])
    }

    // What came back is shown, and its record is the session's.
    pub fn keep(&mut self, came: &Came<'_>) {
        self.state = came.state;
        if let Some(repeat) = &mut self.repeat {
            repeat.last = Some(came.refusal());
        }
    }

    // While a line is repeated, what gives the same again is counted and not shown: no answer, the
    // number, and a record that differs in the frame half read at most.
    pub fn counts(&mut self, came: &Came<'_>) -> bool {
        let Some(repeat) = &mut self.repeat else {
            return false;
        };
        let mut before = self.state;
        before.partial = came.state.partial;
        let again = repeat.last == Some(came.refusal()) && before == came.state;
        if !again || !came.answer().is_empty() {
            return false;
        }
        repeat.same = repeat.same.saturating_add(1);
        self.state = came.state;
        true
    }
}
