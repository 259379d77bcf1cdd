// Recordings (docs/RULES.md E1 to E19): calls of the board kept as bytes, and played back.
//
//     kind   what                        body
//        1   a serial byte                  1
//        2   a safety report: its flags     1, at most 7
//        3   a tick                         0
//        4   a song end                     0
//        5   a sensor image                40
//
// Proved (specs/Recordings.antt, Playback.antt, Answered.antt): any bytes are answered; what is
// written is read back, and what is read prints as it came; a playback leaves what the same calls
// made live leave, also where it is played in parts; and the recording of any calls made live from
// power-on replays to the record that they left.
#![tactic(auto)]

mod writers;

ghost use Rattle.std.specs.Prelude.{◌≡◌, ◌<◌, ◌≤◌, Ok, Err, length, take, drop};
ghost use Rattle.recording.specs.Recordings.{found};
ghost use Rattle.recording.specs.Playback.{seen, looked, size_by, told_done, done_by, told_step, stepped_record, step_of, told_pass, passed_record, passed_at, told_play, continued, standing, at_power_on, replay_of};

use state::State;
use wire::Refusal;
pub use writers::{record_byte, record_image, record_report, record_song_end, record_tick};

// The kinds, as a record's first byte says them.
const SERIAL: u8 = 1;

const REPORT: u8 = 2;

const TICK: u8 = 3;

const SONG_END: u8 = 4;

const IMAGE: u8 = 5;

// A report's flags are bits 0 to 2.
pub const MOST_FLAGS: u8 = 7;

// Why a recording ends.
#[derive(Clone, Copy, Debug, PartialEq, Eq)]
pub enum End {
    Whole,
    UnknownKind,
    FlagsAbove,
    CutShort,
}

// A record.
#[derive(Clone, Copy, Debug, PartialEq, Eq)]
pub enum Record {
    Serial(u8),
    Report(u8),
    Tick,
    SongEnd,
    Image([u8; 40]),
}

// What a playback has at hand: the state record, and the last image.
#[derive(Clone, Copy, Debug, PartialEq, Eq)]
pub struct Stage {
    pub state: State,
    pub image: [u8; 40],
}

// What a record gave: why its call was refused, if it was, and what it left. An image is no call.
#[derive(Clone, Copy, Debug, PartialEq, Eq)]
pub struct Done {
    pub refused: Option<Refusal>,
    pub stage: Stage,
}

// A record performed.
#[derive(Clone, Copy, Debug, PartialEq, Eq)]
pub struct Stepped {
    pub record: Record,
    pub done: Done,
}

// How far a playback came: the records performed, and where and why it ended.
#[derive(Clone, Copy, Debug, PartialEq, Eq)]
pub struct Played {
    pub stage: Stage,
    pub count: usize,
    pub at: usize,
    pub why: End,
}

// A record passed over, and the place after it.
#[derive(Clone, Copy, Debug, PartialEq, Eq)]
pub struct Passed {
    pub record: Record,
    pub at: usize,
}

impl Record {
    // How many bytes it has.
    pub fn size(self) -> usize
        ensures { result ≡ size_by (seen (looked (Ok self))) }
    {
        match self {
            Record::Serial(_) | Record::Report(_) => 2,
            Record::Tick | Record::SongEnd => 1,
            Record::Image(_) => 41,
        }
    }
}

// A body of N bytes, at the start of what is left.
fn body<const N: usize>(rest: &[u8]) -> Result<[u8; N], End>
    ensures cut { length rest.now < N → result ≡ Err End.CutShort }
    ensures whole { N ≤ length rest.now → result ≡ Ok (take N rest.now) }
{
    if rest.len() < N {
        return Err(End::CutShort);
    }
    let mut bytes = [0; N];
    bytes.copy_from_slice(&rest[..N]);
    Ok(bytes)
}

// The calls up to `pass` take a recording and a place, as their contracts name them;
// `Reader` is these with the place kept.

// The record at a place.
pub fn look(s: &[u8], at: usize) -> Result<Record, End>
    ensures { looked result ≡ found (drop at s.now) }
{
    if s.len() <= at {
        return Err(End::Whole);
    }
    let rest = &s[at + 1..];
    match s[at] {
        SERIAL => {
            let [b] = body::<1>(rest)?;
            Ok(Record::Serial(b))
        }
        REPORT => {
            let [flags] = body::<1>(rest)?;
            if flags > MOST_FLAGS {
                return Err(End::FlagsAbove);
            }
            Ok(Record::Report(flags))
        }
        TICK => Ok(Record::Tick),
        SONG_END => Ok(Record::SongEnd),
        IMAGE => Ok(Record::Image(body::<40>(rest)?)),
        _ => Err(End::UnknownKind),
    }
}

// A record performed: one call of the board, or an image kept for the next.
fn perform(what: Record, stage: Stage, buffer: &mut [u8]) -> Done
    requires { length buffer.old ≡ 832 }
    ensures { told_done result ≡ done_by stage (looked (Ok what)) }
{
    let Stage { state, image } = stage;
    let answer = match what {
        Record::Serial(b) => board::byte(state, b, &image, buffer),
        Record::Report(flags) => board::safety_report(
            state,
            flags / 1 % 2 == 1,
            flags / 2 % 2 == 1,
            flags / 4 % 2 == 1,
        ),
        Record::Tick => board::tick(state, &image, buffer),
        Record::SongEnd => board::song_end(state),
        Record::Image(image) => {
            return Done {
                refused: None,
                stage: Stage { state, image },
            };
        }
    };
    Done {
        refused: answer.sent.err(),
        stage: Stage {
            state: answer.state,
            image,
        },
    }
}

// The record at a place, performed; where there is none, nothing is.
pub fn step(s: &[u8], at: usize, stage: Stage) -> Result<Stepped, End>
    ensures done { told_step stage result ≡ step_of stage (found (drop at s.now)) }
    ensures what { stepped_record result ≡ found (drop at s.now) }
{
    let record = look(s, at)?;
    let mut buffer = [0u8; 832];
    let done = perform(record, stage, &mut buffer);
    Ok(Stepped { record, done })
}

// From any stage, at a place of the recording, to the recording's end or the first record that
// cannot be performed; from a place past its end nothing is performed, and the place stays.
pub fn play_from(s: &[u8], at: usize, stage: Stage) -> Played
    ensures { told_play result ≡ continued (standing stage 0 at) s.now }
{
    let mut buffer = [0u8; 832];
    let mut now = stage;
    let mut count = 0;
    let mut here = at;
    // A turn goes on by the size of its record, so that no `for` fits.
    let why = loop {
        let record = match look(s, here) {
            Ok(record) => record,
            Err(why) => break why,
        };
        now = perform(record, now, &mut buffer).stage;
        count += 1;
        here += record.size();
    };
    Played {
        stage: now,
        count,
        at: here,
        why,
    }
}

// The board at power-on, and an image of zeros.
pub fn at_power_on() -> Stage
    ensures { result ≡ at_power_on }
{
    Stage {
        state: state::power_on(),
        image: [0u8; 40],
    }
}

// A whole recording, from power-on.
pub fn replay(s: &[u8]) -> Played
    ensures { told_play result ≡ replay_of s.now }
{
    play_from(s, 0, at_power_on())
}

// The record at a place, and the place after it; where the recording ends the place stays.
pub fn pass(s: &[u8], at: usize) -> Result<Passed, End>
    ensures place { told_pass at result ≡ passed_at s.now at }
    ensures what { passed_record result ≡ found (drop at s.now) }
{
    let record = look(s, at)?;
    Ok(Passed {
        record,
        at: at + record.size(),
    })
}

// A recording that is lent, and a place in it.
#[derive(Clone, Copy, Debug, PartialEq, Eq)]
pub struct Reader<'a> {
    pub recording: &'a [u8],
    pub at: usize,
}

impl<'a> Reader<'a> {
    // At the recording's start.
    pub fn start(recording: &'a [u8]) -> Reader<'a>
        ensures { (result.recording ≡ recording.entry) × (result.at ≡ 0) }
    {
        Reader { recording, at: 0 }
    }

    // What stands at the reader's place.
    pub fn next(self) -> Result<Record, End>
        ensures { looked result ≡ found (drop self.entry.at self.entry.recording.now) }
    {
        look(self.recording, self.at)
    }

    // The same recording, at another place.
    pub fn moved(self, at: usize) -> Reader<'a>
        ensures { (result.recording ≡ self.entry.recording) × (result.at ≡ at) }
    {
        Reader {
            recording: self.recording,
            at,
        }
    }

    // The reader is lent: what stands at its place, and the place moves on behind it.
    pub fn take(&mut self) -> Result<Record, End>
        ensures { (looked result ≡ found (drop self.old.at self.old.recording.now))
            × (seen (looked result) ≡ (passed_at self.old.recording.now self.old.at).what)
            × (self.new.recording ≡ self.old.recording)
            × (self.new.at ≡ (passed_at self.old.recording.now self.old.at).at) }
    {
        let passed = pass(self.recording, self.at)?;
        self.at = passed.at;
        Ok(passed.record)
    }

    // On from the reader's place, to the recording's end or the first record that cannot be
    // performed.
    pub fn play(self, stage: Stage) -> Played
        ensures { told_play result ≡ continued (standing stage 0 self.entry.at) self.entry.recording.now }
    {
        play_from(self.recording, self.at, stage)
    }
}
