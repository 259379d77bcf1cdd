// The board for firmware in C or Rust: the crate `firmware_c` exports these calls, `tools/archive`
// writes the archive, bindings/c has the header and bindings/rust the package; docs/FIRMWARE.md
// says what to call when.
//
// Each call of the board is lent the state record, hands it to the board by value and stores what
// comes back. Nothing is kept between two calls. What crosses, in or out, is numbers alone, no bool
// and no enum, so that any bytes that are lent are a record, good or bad.
#![tactic(auto)]

ghost use Rattle.std.specs.Prelude.{◌≡◌, length};
ghost use Rattle.wire.specs.Replies.{told, sent_of, left_in};
ghost use Rattle.command.specs.CommandTable.{write_reply};
ghost use Rattle.command.specs.Fields.{message_of};
ghost use Rattle.state.specs.State.{power_on};
ghost use Rattle.state.specs.Accepted.{accepted_of};
ghost use Rattle.state.specs.Same.{same_state};
ghost use Rattle.board.specs.Outcome.{answered, written};
ghost use Rattle.board.specs.Calls.{byte_of, report_of, tick_of, song_end_of, run_of, ran_as};
ghost use Rattle.drive.specs.Orders.{speeds_of};
ghost use Rattle.firmware.specs.Border.{flag_set, flag_of, wheel_speeds_of};

use command::Fields;
use state::State;
use wire::Refusal;

// The number (docs/RULES.md N0 to N9), and the length of what was written at the buffer's start.
#[repr(C)]
#[derive(Clone, Copy, Debug, PartialEq, Eq)]
pub struct Reply {
    pub number: u8,
    pub length: usize,
}

impl From<Result<usize, Refusal>> for Reply {
    ghost from_gives = { λ sent reply. (reply.number ≡ (told sent).number) × (reply.length ≡ (told sent).length) };

    fn from(sent: Result<usize, Refusal>) -> Reply {
        match sent {
            Ok(length) => Reply { number: 0, length },
            Err(refusal) => Reply {
                number: u8::from(refusal),
                length: 0,
            },
        }
    }
}

// And of a run, with how many bytes were read.
#[repr(C)]
#[derive(Clone, Copy, Debug, PartialEq, Eq)]
pub struct RunReply {
    pub number: u8,
    pub length: usize,
    pub read: usize,
}

// `drive`'s number and speeds, and whether either was capped: 1 yes, 0 no.
#[repr(C)]
#[derive(Clone, Copy, Debug, PartialEq, Eq)]
pub struct WheelSpeeds {
    pub number: u8,
    pub right: i16,
    pub left: i16,
    pub capped: u8,
}

// The record at power-on, whatever stood there.
pub fn board_power_on(state: &mut State)
    ensures { state.new ≡ power_on }
{
    *state = state::power_on();
}

// One byte.
pub fn board_byte(state: &mut State, b: u8, image: &[u8; 40], buffer: &mut [u8]) -> Reply
    ensures { (state.new ≡ (answered (byte_of state.old b image.now (length buffer.old))).state)
        × (result.number ≡ (answered (byte_of state.old b image.now (length buffer.old))).number)
        × (result.length ≡ (answered (byte_of state.old b image.now (length buffer.old))).length)
        × (buffer.new ≡ written (byte_of state.old b image.now (length buffer.old)) buffer.old) }
{
    let answer = board::byte(*state, b, image, buffer);
    *state = answer.state;
    Reply::from(answer.sent)
}

// Bytes, up to the first that does not wait (rule U1).
pub fn board_run(state: &mut State, bytes: &[u8], image: &[u8; 40], buffer: &mut [u8]) -> RunReply
    ensures { (state.new ≡ (ran_as (run_of state.old bytes.now image.now (length buffer.old))).state)
        × (result.number ≡ (ran_as (run_of state.old bytes.now image.now (length buffer.old))).number)
        × (result.length ≡ (ran_as (run_of state.old bytes.now image.now (length buffer.old))).length)
        × (result.read ≡ (ran_as (run_of state.old bytes.now image.now (length buffer.old))).read)
        × (buffer.new ≡ written (run_of state.old bytes.now image.now (length buffer.old)).outcome buffer.old) }
{
    let ran = board::run(*state, bytes, image, buffer);
    *state = ran.answer.state;
    let Reply { number, length } = Reply::from(ran.answer.sent);
    RunReply {
        number,
        length,
        read: ran.read,
    }
}

// A safety report. Of a flag 0 is clear, and any other number is set. It has no answer bytes, so
// that what comes back is the number.
pub fn board_safety_report(state: &mut State, drop: u8, cliff: u8, charger: u8) -> u8
    ensures { (state.new ≡ (answered (report_of state.old (flag_set drop) (flag_set cliff) (flag_set charger))).state)
        × (result ≡ (answered (report_of state.old (flag_set drop) (flag_set cliff) (flag_set charger))).number) }
{
    let answer = board::safety_report(*state, drop != 0, cliff != 0, charger != 0);
    *state = answer.state;
    Reply::from(answer.sent).number
}

// A tick.
pub fn board_tick(state: &mut State, image: &[u8; 40], buffer: &mut [u8]) -> Reply
    ensures { (state.new ≡ (answered (tick_of state.old image.now (length buffer.old))).state)
        × (result.number ≡ (answered (tick_of state.old image.now (length buffer.old))).number)
        × (result.length ≡ (answered (tick_of state.old image.now (length buffer.old))).length)
        × (buffer.new ≡ written (tick_of state.old image.now (length buffer.old)) buffer.old) }
{
    let answer = board::tick(*state, image, buffer);
    *state = answer.state;
    Reply::from(answer.sent)
}

// A song end.
pub fn board_song_end(state: &mut State) -> u8
    ensures { (state.new ≡ (answered (song_end_of state.old)).state) × (result ≡ (answered (song_end_of state.old)).number) }
{
    let answer = board::song_end(*state);
    *state = answer.state;
    Reply::from(answer.sent).number
}

// Whether the board takes a record: 1 yes; 0 no, and then the calls above answer 8.
pub fn board_accepts(state: &State) -> u8
    ensures { result ≡ flag_of (accepted_of state.now) }
{
    u8::from(state::accepts(*state))
}

// Whether two records are the same in every field: 1 yes, 0 no.
pub fn board_same(a: &State, b: &State) -> u8
    ensures { result ≡ flag_of (same_state a.now b.now) }
{
    u8::from(state::same_lent(a, b))
}

// The host-side writer, of a message in flat fields: 4, then 7, then the frame.
pub fn host_write(message: &Fields, buffer: &mut [u8]) -> Reply
    ensures { (result.number ≡ (sent_of (write_reply (message_of message.now) (length buffer.old))).number)
        × (result.length ≡ (sent_of (write_reply (message_of message.now) (length buffer.old))).length)
        × (buffer.new ≡ left_in (write_reply (message_of message.now) (length buffer.old)) buffer.old) }
{
    Reply::from(command::write(command::message_of(*message), buffer))
}

// The speed of each wheel by a wheel order of the record: its kind and its two numbers. It is the
// one place where speeds are told in numbers.
pub fn wheel_speeds(kind: u8, first: i16, second: i16) -> WheelSpeeds
    ensures { result ≡ wheel_speeds_of (speeds_of kind first second) }
{
    match drive::wheel_speeds(kind, first, second) {
        Ok(speeds) => WheelSpeeds {
            number: 0,
            right: speeds.right,
            left: speeds.left,
            capped: u8::from(speeds.capped),
        },
        Err(refusal) => WheelSpeeds {
            number: u8::from(refusal),
            right: 0,
            left: 0,
            capped: 0,
        },
    }
}
