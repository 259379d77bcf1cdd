// The board: five calls on a state record, which goes in by value and comes back by value, beside
// the length of what was written or one of the refusals of docs/RULES.md N1 to N9.
//
//     byte             one byte; the last of a frame has its command judged (C1)
//     run              the bytes of a slice, up to the first that does not wait (U1 to U5)
//     safety_report    wheel drop, cliff, powered charger: in Safe it may stop the base (S1 to S11)
//     tick             the chunk of the stream list (K1 to K8)
//     song_end         the song that plays has ended (S12)
//
//     8 bad record, 9 waiting, then 1 unknown, 2 not offered, 3 wrong mode, 4 data, 5 no song,
//     6 busy, 7 no room, and else done
//
// Proved (specs/Demand1.antt, Demand2.antt, Demand3.antt): for any record, bytes, report and buffer
// there is an answer, and a refusal changes nothing but the frame it reads past and writes nothing;
// the tables and the shown cases of docs/RULES.md come out as written; and from any accepted record
// every list of calls that reads at least 511 bytes, all 128, ends in Passive with nothing half
// read and all motors off, and 511 is the least.
#![tactic(auto)]

mod effect;

ghost use Rattle.std.specs.Prelude.{◌≡◌, true, ◌&&◌, ◌<◌, pos, length, drop};
ghost use Rattle.std.specs.Int.Signed.{lt_z};
ghost use Rattle.wire.specs.Sixteen.{minus};
ghost use Rattle.wire.specs.Replies.{told};
ghost use Rattle.command.specs.Layout.{refusal_of};
ghost use Rattle.command.specs.CommandTable.{legal_of};
ghost use Rattle.state.specs.State.{song_at};
ghost use Rattle.state.specs.Accepted.{is_set};
ghost use Rattle.board.specs.Outcome.{number_in, told_answer, answered, sent_as, written};
ghost use Rattle.board.specs.Judge.{status_of, rules, judged_by, judge_of};
ghost use Rattle.board.specs.Calls.{byte_of, backs_round, into_cliff, stops_for, report_of, tick_of, song_end_of, run_of, told_run, ran_as};

use command::{Command, Message};
use effect::effect;
use frame::Frame;
use packet::Status;
use state::{Motors, Songs, State};
use wire::Refusal;

// What a call gives back: the new record, and the length of what it wrote at its buffer's start, or
// why it is refused. A refusal has a new record too: the frame is read past. Each call's contract
// equates what it tells with a definition of its own, so that no two say the same. Record, image
// and buffer go in one by one, as C lends them: a struct of the three would be made for each call.
#[derive(Clone, Copy, Debug, PartialEq, Eq)]
pub struct Answer {
    pub state: State,
    pub sent: Result<usize, Refusal>,
}

// And a run, with how many bytes were read.
#[derive(Clone, Copy, Debug, PartialEq, Eq)]
pub struct Ran {
    pub answer: Answer,
    pub read: usize,
}

impl Answer {
    fn new(state: State, sent: Result<usize, Refusal>) -> Answer
        ensures { result ≡ record { state = state; sent = sent } }
    {
        Answer { state, sent }
    }
}

// What packets 35 to 42 tell. A number of a wheel order is 0 where that order is not present.
fn status_of(state: &State) -> Status
    ensures { result ≡ status_of state.now }
{
    let Motors {
        order,
        first,
        second,
        ..
    } = state.motors;
    let (velocity, radius) = if order == state::DRIVE {
        (first, second)
    } else {
        (0, 0)
    };
    let (right, left) = if order == state::DIRECT {
        (first, second)
    } else {
        (0, 0)
    };
    Status {
        mode: state.mode,
        selected: state.songs.selected,
        playing: state.songs.playing,
        listed: state.stream.count,
        velocity,
        radius,
        right,
        left,
    }
}

// The variants that are refused as such.
fn offered(command: Command) -> Result<(), Refusal>
    ensures { number_in result ≡ refusal_of command }
{
    match command {
        Command::Unknown(_) => Err(Refusal::Unknown),
        Command::NotOffered(_) => Err(Refusal::NotOffered),
        _ => Ok(()),
    }
}

// Whether a song of the table is set.
fn is_set(songs: &Songs, song: u8) -> bool
    requires { song < 16 }
    ensures { result ≡ is_set (song_at songs.now song) }
{
    songs.table[usize::from(song)].len != 0
}

// An offered command in one of its modes, with legal data: refusals 5 to 7 in their order, and else
// its answer. What it does to the record is effect's.
fn carry_out(
    state: &State,
    message: Message,
    image: &[u8; 40],
    buffer: &mut [u8],
) -> Result<usize, Refusal>
    requires { legal_of message ≡ true }
    ensures { (told result ≡ sent_as (judged_by (drop 4 (rules state.now message image.now (length buffer.old))) state.now message image.now))
        × (buffer.new ≡ written (judged_by (drop 4 (rules state.now message image.now (length buffer.old))) state.now message image.now) buffer.old) }
{
    match message.command {
        Command::Play(song) => {
            if !is_set(&state.songs, song) {
                return Err(Refusal::NoSong);
            }
            if state.songs.playing == state::YES {
                return Err(Refusal::Busy);
            }
            Ok(0)
        }
        Command::Sensors(id) => packet::answer(&[id], status_of(state), image, buffer),
        Command::QueryList(ids) => {
            let ids = &message.payload[..usize::from(ids)];
            packet::answer(ids, status_of(state), image, buffer)
        }
        _ => Ok(0),
    }
}

// What a command gets back when its last byte comes: refusals 1 to 7 in their order, and else its
// answer.
fn judge(
    state: &State,
    message: Message,
    image: &[u8; 40],
    buffer: &mut [u8],
) -> Result<usize, Refusal>
    ensures { (told result ≡ sent_as (judge_of state.now message image.now (length buffer.old)))
        × (buffer.new ≡ written (judge_of state.now message image.now (length buffer.old)) buffer.old) }
{
    offered(message.command)?;
    if !command::allowed(message.command, state.mode) {
        return Err(Refusal::WrongMode);
    }
    if !command::legal(message) {
        return Err(Refusal::NotLegal);
    }
    carry_out(state, message, image, buffer)
}

// The bytes of a slice, up to the first that does not wait (rule U1). The record is checked once,
// and a frame's data bytes are taken together: before the run's end only the partial frame changes.
// What becomes of a whole frame stands here and in no function of its own, and each way out makes
// its own answer: either form cost a copy of the whole record more in each run.
pub fn run(state: State, bytes: &[u8], image: &[u8; 40], buffer: &mut [u8]) -> Ran
    ensures { (told_run result ≡ ran_as (run_of state bytes.now image.now (length buffer.old)))
        × (buffer.new ≡ written (run_of state bytes.now image.now (length buffer.old)).outcome buffer.old) }
{
    if !state::accepts(state) {
        return Ran {
            answer: Answer::new(state, Err(Refusal::BadRecord)),
            read: 0,
        };
    }
    let mut partial = state.partial;
    let mut read = 0;
    // A turn takes as many bytes as surely belong to one frame. It ends by a break (rule Q1).
    let ran = loop {
        if read == bytes.len() {
            let answer = Answer::new(state::with_partial(state, partial), Err(Refusal::Waiting));
            break Ran { answer, read };
        }
        let taken = frame::absorb(partial, &bytes[read..]);
        read += taken.count;
        match taken.frame {
            Frame::Waits(next) => partial = next,
            Frame::Whole(whole) => {
                let message = command::decode(whole.bytes);
                let sent = judge(&state, message, image, buffer);
                let cleared = state::with_partial(state, frame::empty());
                if sent.is_err() {
                    let state = cleared;
                    let answer = Answer { state, sent };
                    break Ran { answer, read };
                }
                let state = effect(cleared, message);
                let answer = Answer { state, sent };
                break Ran { answer, read };
            }
        }
    };
    ran
}

// One byte: a run over it.
pub fn byte(state: State, b: u8, image: &[u8; 40], buffer: &mut [u8]) -> Answer
    ensures { (told_answer result ≡ answered (byte_of state b image.now (length buffer.old)))
        × (buffer.new ≡ written (byte_of state b image.now (length buffer.old)) buffer.old) }
{
    run(state, &[b], image, buffer).answer
}

// Backwards on a tight curve (rule S5).
fn backs_tightly(velocity: i16, radius: i16) -> bool
    ensures { result ≡ (lt_z velocity (pos 0) && (lt_z (minus 165) radius && lt_z radius (pos 165))) }
{
    velocity < 0 && (-165 < radius && radius < 165)
}

// Backwards round a stair head by Direct (rule S7). Computed in 32 bits, which hold 165 times the
// sum or the difference of any two wheels. That the two differ is in the comparison: 165 times no
// difference is above nothing.
fn backs_round(right: i16, left: i16) -> bool
    ensures { result ≡ backs_round right left }
{
    if right > 0 || left > 0 {
        return false;
    }
    let r = i32::from(right);
    let l = i32::from(left);
    129 * wire::magnitude(r + l) < 165 * wire::magnitude(r - l)
}

// Whether the base moves into a cliff (rules S4 to S7); of a Drive the two numbers are velocity and
// radius, of a Direct right and left.
fn into_cliff(motors: Motors) -> bool
    ensures { result ≡ into_cliff motors }
{
    let Motors { first, second, .. } = motors;
    match motors.order {
        state::DRIVE => first > 0 || backs_tightly(first, second),
        state::DIRECT => first > 0 || second > 0 || backs_round(first, second),
        _ => false,
    }
}

// Whether a report stops the base, were it in Safe.
fn stops_for(motors: Motors, drop: bool, cliff: bool, charger: bool) -> bool
    ensures { result ≡ stops_for motors drop cliff charger }
{
    drop || charger || (cliff && into_cliff(motors))
}

// A safety report: wheel drop, cliff, powered charger, one by one, as C hands them in. It stops the
// base in Safe alone, and never touches a half-read frame.
pub fn safety_report(state: State, drop: bool, cliff: bool, charger: bool) -> Answer
    ensures { told_answer result ≡ answered (report_of state drop cliff charger) }
{
    if !state::accepts(state) {
        return Answer::new(state, Err(Refusal::BadRecord));
    }
    if state.mode == command::SAFE && stops_for(state.motors, drop, cliff, charger) {
        return Answer::new(state::to_passive(state), Ok(0));
    }
    Answer::new(state, Ok(0))
}

// What a tick writes: the chunk of the stream list, where there is one.
fn due(state: &State, image: &[u8; 40], buffer: &mut [u8]) -> Result<usize, Refusal>
    ensures { (told result ≡ sent_as (tick_of state.now image.now (length buffer.old)))
        × (buffer.new ≡ written (tick_of state.now image.now (length buffer.old)) buffer.old) }
{
    if !state::accepts(*state) {
        return Err(Refusal::BadRecord);
    }
    if state.mode == command::OFF {
        return Err(Refusal::WrongMode); // rule K1
    }
    let stream = &state.stream;
    if stream.on != state::YES || stream.count == 0 {
        return Ok(0);
    }
    let ids = &stream.ids[..usize::from(stream.count)];
    packet::chunk(ids, status_of(state), image, buffer)
}

// A tick. It leaves the record as it is: the one answer is made here, since each more was a copy of
// the whole record.
pub fn tick(state: State, image: &[u8; 40], buffer: &mut [u8]) -> Answer
    ensures { (told_answer result ≡ answered (tick_of state image.now (length buffer.old)))
        × (buffer.new ≡ written (tick_of state image.now (length buffer.old)) buffer.old) }
{
    let sent = due(&state, image, buffer);
    Answer { state, sent }
}

// A song end (rule S12).
pub fn song_end(state: State) -> Answer
    ensures { told_answer result ≡ answered (song_end_of state) }
{
    if !state::accepts(state) {
        return Answer::new(state, Err(Refusal::BadRecord));
    }
    let mut songs = state.songs;
    songs.playing = state::NO;
    Answer::new(state::with_songs(state, songs), Ok(0))
}
