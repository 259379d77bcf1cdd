// The archive for C and Rust: the board's calls under the names that the header declares. What they
// do is in `firmware`, which has the same clauses; a crate is a library or an archive, not both.
#![tactic(auto)]

ghost use Rattle.std.specs.Prelude.{◌≡◌, length};
ghost use Rattle.wire.specs.Replies.{sent_of, left_in};
ghost use Rattle.command.specs.CommandTable.{write_reply};
ghost use Rattle.command.specs.Fields.{message_of};
ghost use Rattle.state.specs.State.{power_on};
ghost use Rattle.state.specs.Accepted.{accepted_of};
ghost use Rattle.state.specs.Same.{same_state};
ghost use Rattle.board.specs.Outcome.{answered, written};
ghost use Rattle.board.specs.Calls.{byte_of, report_of, tick_of, song_end_of, run_of, ran_as};
ghost use Rattle.drive.specs.Orders.{speeds_of};
ghost use Rattle.firmware.specs.Border.{flag_set, flag_of, wheel_speeds_of};

use command::Fields;
use firmware::{Reply, RunReply, WheelSpeeds};
use state::State;

// The record at power-on, whatever stood there.
#[unsafe(no_mangle)]
pub extern "C" fn board_power_on(state: &mut State)
    ensures { state.new ≡ power_on }
{
    firmware::board_power_on(state);
}

// One byte.
#[unsafe(no_mangle)]
pub extern "C" fn board_byte(state: &mut State, b: u8, image: &[u8; 40], buffer: &mut [u8]) -> Reply
    ensures { (state.new ≡ (answered (byte_of state.old b image.now (length buffer.old))).state)
        × (result.number ≡ (answered (byte_of state.old b image.now (length buffer.old))).number)
        × (result.length ≡ (answered (byte_of state.old b image.now (length buffer.old))).length)
        × (buffer.new ≡ written (byte_of state.old b image.now (length buffer.old)) buffer.old) }
{
    firmware::board_byte(state, b, image, buffer)
}

// Bytes, up to the first that does not wait (rule U1).
#[unsafe(no_mangle)]
pub extern "C" fn board_run(
    state: &mut State,
    bytes: &[u8],
    image: &[u8; 40],
    buffer: &mut [u8],
) -> RunReply
    ensures { (state.new ≡ (ran_as (run_of state.old bytes.now image.now (length buffer.old))).state)
        × (result.number ≡ (ran_as (run_of state.old bytes.now image.now (length buffer.old))).number)
        × (result.length ≡ (ran_as (run_of state.old bytes.now image.now (length buffer.old))).length)
        × (result.read ≡ (ran_as (run_of state.old bytes.now image.now (length buffer.old))).read)
        × (buffer.new ≡ written (run_of state.old bytes.now image.now (length buffer.old)).outcome buffer.old) }
{
    firmware::board_run(state, bytes, image, buffer)
}

// A safety report. Of a flag 0 is clear, and any other number is set. It has no answer bytes, so
// that what comes back is the number.
#[unsafe(no_mangle)]
pub extern "C" fn board_safety_report(state: &mut State, drop: u8, cliff: u8, charger: u8) -> u8
    ensures { (state.new ≡ (answered (report_of state.old (flag_set drop) (flag_set cliff) (flag_set charger))).state)
        × (result ≡ (answered (report_of state.old (flag_set drop) (flag_set cliff) (flag_set charger))).number) }
{
    firmware::board_safety_report(state, drop, cliff, charger)
}

// A tick.
#[unsafe(no_mangle)]
pub extern "C" fn board_tick(state: &mut State, image: &[u8; 40], buffer: &mut [u8]) -> Reply
    ensures { (state.new ≡ (answered (tick_of state.old image.now (length buffer.old))).state)
        × (result.number ≡ (answered (tick_of state.old image.now (length buffer.old))).number)
        × (result.length ≡ (answered (tick_of state.old image.now (length buffer.old))).length)
        × (buffer.new ≡ written (tick_of state.old image.now (length buffer.old)) buffer.old) }
{
    firmware::board_tick(state, image, buffer)
}

// A song end.
#[unsafe(no_mangle)]
pub extern "C" fn board_song_end(state: &mut State) -> u8
    ensures { (state.new ≡ (answered (song_end_of state.old)).state) × (result ≡ (answered (song_end_of state.old)).number) }
{
    firmware::board_song_end(state)
}

// Whether the board takes a record: 1 yes; 0 no, and then the calls above answer 8.
#[unsafe(no_mangle)]
pub extern "C" fn board_accepts(state: &State) -> u8
    ensures { result ≡ flag_of (accepted_of state.now) }
{
    firmware::board_accepts(state)
}

// Whether two records are the same in every field: 1 yes, 0 no.
#[unsafe(no_mangle)]
pub extern "C" fn board_same(a: &State, b: &State) -> u8
    ensures { result ≡ flag_of (same_state a.now b.now) }
{
    firmware::board_same(a, b)
}

// The host-side writer, of a message in flat fields: 4, then 7, then the frame.
#[unsafe(no_mangle)]
pub extern "C" fn host_write(message: &Fields, buffer: &mut [u8]) -> Reply
    ensures { (result.number ≡ (sent_of (write_reply (message_of message.now) (length buffer.old))).number)
        × (result.length ≡ (sent_of (write_reply (message_of message.now) (length buffer.old))).length)
        × (buffer.new ≡ left_in (write_reply (message_of message.now) (length buffer.old)) buffer.old) }
{
    firmware::host_write(message, buffer)
}

// The speed of each wheel by a wheel order of the record: its kind and its two numbers.
#[unsafe(no_mangle)]
pub extern "C" fn wheel_speeds(kind: u8, first: i16, second: i16) -> WheelSpeeds
    ensures { result ≡ wheel_speeds_of (speeds_of kind first second) }
{
    firmware::wheel_speeds(kind, first, second)
}
