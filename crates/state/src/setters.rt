// The setters: a record with one thing changed. Nothing else changes one.
ghost use Rattle.std.specs.Prelude.{◌≡◌, take};
ghost use Rattle.state.specs.State.{with_mode, with_motors, with_kept, with_songs, with_stream, with_partial, with_wheels, with_duties, with_baud, with_leds, with_outputs, with_infrared, with_song, with_selected, with_playing, with_list, with_streaming, to_passive};

use crate::{Kept, Motors, Song, Songs, State, Stream};
use frame::Partial;

// One setter for each part: a field is no type or constant over which one function could be.

pub fn with_mode(mut state: State, mode: u8) -> State
    ensures { result ≡ with_mode mode state }
{
    state.mode = mode;
    state
}

pub fn with_motors(mut state: State, motors: Motors) -> State
    ensures { result ≡ with_motors motors state }
{
    state.motors = motors;
    state
}

pub fn with_kept(mut state: State, kept: Kept) -> State
    ensures { result ≡ with_kept kept state }
{
    state.kept = kept;
    state
}

pub fn with_songs(mut state: State, songs: Songs) -> State
    ensures { result ≡ with_songs songs state }
{
    state.songs = songs;
    state
}

pub fn with_stream(mut state: State, stream: Stream) -> State
    ensures { result ≡ with_stream stream state }
{
    state.stream = stream;
    state
}

pub fn with_partial(mut state: State, partial: Partial) -> State
    ensures { result ≡ with_partial partial state }
{
    state.partial = partial;
    state
}

// And what a command sets within a part.

pub fn with_wheels(mut state: State, order: u8, first: i16, second: i16) -> State
    ensures { result ≡ with_wheels order first second state }
{
    state.motors = Motors {
        order,
        first,
        second,
        ..state.motors
    };
    state
}

pub fn with_duties(mut state: State, duties: [u8; 3]) -> State
    ensures { result ≡ with_duties duties state }
{
    state.motors.duties = duties;
    state
}

pub fn with_baud(mut state: State, code: u8) -> State
    ensures { result ≡ with_baud code state }
{
    state.kept.baud = code;
    state
}

pub fn with_leds(mut state: State, leds: [u8; 3]) -> State
    ensures { result ≡ with_leds leds state }
{
    state.kept.leds = leds;
    state
}

pub fn with_outputs(mut state: State, bits: u8) -> State
    ensures { result ≡ with_outputs bits state }
{
    state.kept.outputs = bits;
    state
}

pub fn with_infrared(mut state: State, code: u8) -> State
    ensures { result ≡ with_infrared code state }
{
    state.kept.ir = code;
    state
}

// There is none of 16 and above. The songs are taken out and put back: written in place, or with
// the table alone taken out, it cost each run of the board more.
pub fn with_song(state: State, song: u8, len: u8, notes: [u8; 32]) -> State
    ensures { result ≡ with_song song (record { len = len; notes = notes }) state }
{
    if song > command::LAST_SONG {
        return state;
    }
    let mut songs = state.songs;
    let mut table = songs.table;
    table[usize::from(song)] = Song { len, notes };
    songs.table = table;
    with_songs(state, songs)
}

// Selected, and playing.
pub fn with_played(mut state: State, song: u8) -> State
    ensures { result ≡ with_playing 1 (with_selected song state) }
{
    state.songs.selected = song;
    state.songs.playing = crate::YES;
    state
}

// The list replaced by the first 16 places of the payload, and streaming on. The ids are made by
// themselves for the same reason.
pub fn with_streamed(mut state: State, count: u8, payload: [u8; 32]) -> State
    ensures { result ≡ with_streaming 1 (with_list count (take 16 payload) state) }
{
    let mut ids = [0; 16];
    ids.copy_from_slice(&payload[..16]);
    state.stream = Stream {
        ids,
        count,
        on: crate::YES,
    };
    state
}

pub fn with_streaming(mut state: State, on: u8) -> State
    ensures { result ≡ with_streaming on state }
{
    state.stream.on = on;
    state
}

// Entering Passive (rule M17), and with it a stop: no wheel order, and no duty.
pub fn to_passive(mut state: State) -> State
    ensures { result ≡ to_passive state }
{
    state.mode = command::PASSIVE;
    state.motors = Motors {
        order: crate::NO_ORDER,
        first: 0,
        second: 0,
        duties: [0; 3],
    };
    state
}
