// The state record of the board: what it is at power-on (docs/RULES.md M1 to M14), which records
// are bad (docs/RULES.md B1 to B17), and whether two are the same.
//
//     mode       0 Off, 1 Passive, 2 Safe, 3 Full
//     motors     the wheel order and three duties
//     kept       baud code, LEDs, outputs, IR byte
//     songs      16 songs, the selected one, whether it plays
//     stream     the stream list, whether streaming is on
//     partial    the held frame
//
// The board's caller will hand a record in with each call, so it may be any value of the type. This
// crate says which are bad; the number 8 is the board's. `broken` says which items of the test a
// record breaks: none, exactly where it is accepted.
//
// Proved (specs/Record.antt): which records are accepted, exactly; the power-on record is; each
// setter keeps a record accepted, under the condition on what it sets; and (specs/Same.antt) the
// test of two records is equality.
#![tactic(auto)]

mod items;
mod setters;

ghost use Rattle.std.specs.Prelude.{◌≡◌, ◌&&◌, ◌++◌, ◌≤◌, drop, replicate};
ghost use Rattle.std.specs.List.{list_all};
ghost use Rattle.wire.specs.Lists.{all_zero};
ghost use Rattle.state.specs.State.{power_on, motors_off};
ghost use Rattle.state.specs.Same.{same_state};
ghost use Rattle.state.specs.Accepted.{order_named, off_unless_driven, wheels_legal, duties_legal, motors_ok, kept_ok, song_ok, songs_ok, stream_ok, accepted_of};

use frame::Partial;
pub use items::broken;
pub use setters::{
    to_passive, with_baud, with_duties, with_infrared, with_kept, with_leds, with_mode,
    with_motors, with_outputs, with_partial, with_played, with_song, with_songs, with_stream,
    with_streamed, with_streaming, with_wheels,
};

// Power-on's baud code.
const FIRST_BAUD: u8 = 10;

// The kinds of wheel order. They are numbers and no enum, since the record crosses to C: any byte
// can be lent there, and another than these three is a bad record.
pub const NO_ORDER: u8 = 0;

pub const DRIVE: u8 = 1;

pub const DIRECT: u8 = 2;

// A flag of the record. It is a number and no bool, so that any byte that is lent is one; another
// than these two is a bad record.
pub const NO: u8 = 0;

pub const YES: u8 = 1;

// A wheel order: its kind, and velocity and radius of a Drive, or right and left of a Direct. Of no
// order the two numbers may be anything. Driver i's duty is duties[i].
#[repr(C)]
#[derive(Clone, Copy, Debug, PartialEq, Eq)]
pub struct Motors {
    pub order: u8,
    pub first: i16,
    pub second: i16,
    pub duties: [u8; 3],
}

// What is kept as it was sent: the code for the serial speed, the LEDs' three bytes, the digital
// outputs, the IR byte.
#[repr(C)]
#[derive(Clone, Copy, Debug, PartialEq, Eq)]
pub struct Kept {
    pub baud: u8,
    pub leds: [u8; 3],
    pub outputs: u8,
    pub ir: u8,
}

// A song: its length in notes, 0 where it is not set, and its notes, two bytes each.
#[repr(C)]
#[derive(Clone, Copy, Debug, PartialEq, Eq)]
pub struct Song {
    pub len: u8,
    pub notes: [u8; 32],
}

#[repr(C)]
#[derive(Clone, Copy, Debug, PartialEq, Eq)]
pub struct Songs {
    pub table: [Song; 16],
    pub selected: u8,
    pub playing: u8,
}

// The stream list: its ids, in the first places, and their number.
#[repr(C)]
#[derive(Clone, Copy, Debug, PartialEq, Eq)]
pub struct Stream {
    pub ids: [u8; 16],
    pub count: u8,
    pub on: u8,
}

// It holds no enum and no bool: any bytes that are lent are a record, good or bad. Its lists are
// arrays with their counts beside them, as C has them.
#[repr(C)]
#[derive(Clone, Copy, Debug, PartialEq, Eq)]
pub struct State {
    pub mode: u8,
    pub motors: Motors,
    pub kept: Kept,
    pub songs: Songs,
    pub stream: Stream,
    pub partial: Partial,
}

// The record at power-on.
#[tactic(auto, unfolding(crate::specs::State::power_on))]
pub fn power_on() -> State
    ensures { result ≡ power_on }
{
    let unset = Song {
        len: 0,
        notes: [0; 32],
    };
    State {
        mode: command::OFF,
        motors: Motors {
            order: NO_ORDER,
            first: 0,
            second: 0,
            duties: [0; 3],
        },
        kept: Kept {
            baud: FIRST_BAUD,
            leds: [0; 3],
            outputs: 0,
            ir: 0,
        },
        songs: Songs {
            table: [unset; 16],
            selected: 0,
            playing: NO,
        },
        stream: Stream {
            ids: [0; 16],
            count: 0,
            on: NO,
        },
        partial: frame::empty(),
    }
}

// Whether two records are the same.
pub fn same(a: State, b: State) -> bool
    ensures { result ≡ same_state a b }
{
    same_lent(&a, &b)
}

// And of records that are lent: so neither is copied.
pub fn same_lent(a: &State, b: &State) -> bool
    ensures { result ≡ same_state a.now b.now }
{
    *a == *b
}

// A Drive order of velocity 0 is not off.
#[tactic(auto, unfolding(crate::specs::State::motors_off))]
fn motors_off(motors: Motors) -> bool
    ensures { result ≡ motors_off motors }
{
    motors.order == NO_ORDER && wire::clear_from(&motors.duties, 0)
}

// Off and Passive ask that the motors are off.
#[tactic(auto, using(crate::proofs::AcceptedLaws::unless_driven))]
fn off_unless_driven(mode: u8, motors: Motors) -> bool
    ensures { result ≡ off_unless_driven mode motors }
{
    mode > command::PASSIVE || motors_off(motors)
}

// The kind is one that is named, and its numbers are legal; those of no order may be anything.
#[tactic(auto, using(crate::proofs::AcceptedLaws::wheels), unfolding(crate::specs::Accepted::order_named))]
pub fn wheels_ok(motors: Motors) -> bool
    ensures { result ≡ (order_named motors && wheels_legal motors) }
{
    match motors.order {
        NO_ORDER => true,
        DRIVE => command::is_speed(motors.first) && command::is_radius(motors.second),
        DIRECT => command::is_speed(motors.first) && command::is_speed(motors.second),
        _ => false,
    }
}

fn duties_legal(motors: Motors) -> bool
    ensures { result ≡ duties_legal motors }
{
    motors.duties.iter().all(|&duty| duty <= command::FULL_DUTY)
}

// The tests of a record, part by part. The ranges are those of the commands that set it, by the
// names that `command` and `packet` have for them.

fn motors_ok(mode: u8, motors: Motors) -> bool
    ensures { result ≡ motors_ok mode motors }
{
    mode <= command::FULL
        && off_unless_driven(mode, motors)
        && wheels_ok(motors)
        && duties_legal(motors)
}

// The LEDs and the IR byte may be any bytes.
fn kept_ok(kept: Kept) -> bool
    ensures { result ≡ kept_ok kept }
{
    kept.outputs <= command::LAST_OUTPUTS && kept.baud <= command::LAST_BAUD
}

// Whether the places from `used` on are 0. All 32 are looked at, as many as the type says, which
// the compiler does at once: the mask hides those in use.
fn clear_past(notes: &[u8; 32], used: usize, mask: &[u8]) -> bool
    requires used_bound { used ≤ 32 }
    requires mask_value { mask.now ≡ replicate 32 0 ++ replicate 32 255 }
    ensures { result ≡ all_zero (drop used notes.now) }
{
    let start = 32 - used;
    let mut left = 0u8;
    for i in 0..32 {
        left |= notes[i] & mask[start + i];
    }
    left == 0
}

fn song_ok(song: Song, mask: &[u8]) -> bool
    requires { mask.now ≡ replicate 32 0 ++ replicate 32 255 }
    ensures { result ≡ song_ok song }
{
    song.len <= frame::LEGAL_COUNT && clear_past(&song.notes, 2 * usize::from(song.len), mask)
}

// Each of the 16. The mask has 0 in 32 places and 255 in 32 more: read from place 32 - n on, it
// hides the first n of 32 places.
fn table_ok(table: &[Song; 16]) -> bool
    ensures { result ≡ list_all song_ok table.now }
{
    let halves = [[0; 32], [255; 32]];
    let mask = halves.as_flattened();
    table.iter().all(|&song| song_ok(song, mask))
}

// They are lent, and each other part is handed over: a copy of the table costs, and of bytes that
// are handed over the check knows by itself that they are bytes.
#[tactic(auto, using(crate::proofs::AcceptedLaws::songs_tested))]
fn songs_ok(songs: &Songs) -> bool
    ensures { result ≡ songs_ok songs.now }
{
    if songs.selected > command::LAST_SONG || songs.playing > YES {
        return false;
    }
    items::playing_set(songs) && table_ok(&songs.table)
}

// The ids in use are held to rule C148, sizes included.
fn stream_ok(stream: Stream) -> bool
    ensures { result ≡ stream_ok stream }
{
    let n = usize::from(stream.count);
    stream.on <= YES
        && stream.count <= frame::LEGAL_COUNT
        && packet::streamable(&stream.ids[..n])
        && wire::clear_from(&stream.ids, n)
}

// Whether the board takes a record; a bad one is any other. The songs are copied where they are
// asked, and not the whole record before anything is: a bad one is mostly told by what comes first.
pub fn accepts(state: State) -> bool
    ensures { result ≡ accepted_of state }
{
    motors_ok(state.mode, state.motors)
        && kept_ok(state.kept)
        && songs_ok(&{ state.songs })
        && stream_ok(state.stream)
        && frame::reachable(state.partial)
}
