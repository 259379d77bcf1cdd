// A state record in bytes, as docs/CALLS.md lays it out, both ways; and a message's fields.
ghost use Rattle.std.specs.Prelude.{◌<◌};

use command::Fields;
use frame::Partial;
use state::{Kept, Motors, Song, Songs, State, Stream};

// ---- from bytes

// N bytes from a place on, 0 past the end.
fn array_at<const N: usize>(bytes: &[u8], from: usize) -> [u8; N] {
    let mut part = [0u8; N];
    for (to, &b) in part.iter_mut().zip(bytes.iter().skip(from)) {
        *to = b;
    }
    part
}

fn signed_at(bytes: &[u8], from: usize) -> i16 {
    i16::from_be_bytes(array_at(bytes, from))
}

fn word_at(bytes: &[u8], from: usize) -> usize
    ensures { result < 65536 }
{
    usize::from(u16::from_be_bytes(array_at(bytes, from)))
}

fn motors_at(bytes: &[u8; 602]) -> Motors {
    Motors {
        order: bytes[1],
        first: signed_at(bytes, 2),
        second: signed_at(bytes, 4),
        duties: array_at(bytes, 6),
    }
}

fn kept_at(bytes: &[u8; 602]) -> Kept {
    Kept {
        baud: bytes[9],
        leds: array_at(bytes, 10),
        outputs: bytes[13],
        ir: bytes[14],
    }
}

fn song_at(bytes: &[u8], from: usize) -> Song {
    let [len]: [u8; 1] = array_at(bytes, from);
    Song {
        len,
        notes: array_at(bytes, from.wrapping_add(1)),
    }
}

fn songs_at(bytes: &[u8; 602]) -> Songs {
    let mut table = [song_at(bytes, 15); 16];
    for (i, song) in table.iter_mut().enumerate() {
        *song = song_at(bytes, 15 + 33 * i);
    }
    Songs {
        table,
        selected: bytes[543],
        playing: bytes[544],
    }
}

fn stream_at(bytes: &[u8; 602]) -> Stream {
    Stream {
        ids: array_at(bytes, 545),
        count: bytes[561],
        on: bytes[562],
    }
}

fn partial_at(bytes: &[u8; 602]) -> Partial {
    Partial {
        bytes: array_at(bytes, 563),
        count: word_at(bytes, 598),
        remaining: word_at(bytes, 600),
    }
}

pub fn state_of(bytes: &[u8; 602]) -> State {
    State {
        mode: bytes[0],
        motors: motors_at(bytes),
        kept: kept_at(bytes),
        songs: songs_at(bytes),
        stream: stream_at(bytes),
        partial: partial_at(bytes),
    }
}

pub fn fields_of(body: &[u8; 40]) -> Fields {
    Fields {
        opcode: body[0],
        a: body[1],
        b: body[2],
        c: body[3],
        first: signed_at(body, 4),
        second: signed_at(body, 6),
        payload: array_at(body, 8),
    }
}

// ---- to bytes

// Where the bytes of a record go, one after the other.
pub trait Sink {
    fn put(&mut self, bytes: &[u8]);

    // The low two bytes of a number, the high one first.
    fn put_word(&mut self, n: usize) {
        let [.., high, low] = n.to_be_bytes();
        self.put(&[high, low]);
    }
}

fn put_motors<S: Sink>(sink: &mut S, motors: &Motors) {
    sink.put(&[motors.order]);
    sink.put(&motors.first.to_be_bytes());
    sink.put(&motors.second.to_be_bytes());
    sink.put(&motors.duties);
}

fn put_kept<S: Sink>(sink: &mut S, kept: &Kept) {
    sink.put(&[kept.baud]);
    sink.put(&kept.leds);
    sink.put(&[kept.outputs]);
    sink.put(&[kept.ir]);
}

fn put_songs<S: Sink>(sink: &mut S, songs: &Songs) {
    for song in &songs.table {
        sink.put(&[song.len]);
        sink.put(&song.notes);
    }
    sink.put(&[songs.selected]);
    sink.put(&[songs.playing]);
}

fn put_stream<S: Sink>(sink: &mut S, stream: &Stream) {
    sink.put(&stream.ids);
    sink.put(&[stream.count]);
    sink.put(&[stream.on]);
}

fn put_partial<S: Sink>(sink: &mut S, partial: &Partial) {
    sink.put(&partial.bytes);
    sink.put_word(partial.count);
    sink.put_word(partial.remaining);
}

// The 602 bytes of a record.
pub fn put_state<S: Sink>(sink: &mut S, state: &State) {
    sink.put(&[state.mode]);
    put_motors(sink, &state.motors);
    put_kept(sink, &state.kept);
    put_songs(sink, &state.songs);
    put_stream(sink, &state.stream);
    put_partial(sink, &state.partial);
}
