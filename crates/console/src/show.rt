// What is said of a record, within 100 columns: the mode and the wheels, and of the rest what a
// call has changed. A record's order and flags are numbers and no enums, since C reads it.
use drive::Speeds;
use frame::Partial;
use state::{Kept, Motors, Songs, State, Stream};
use terminal::{Listed, Out, Write, say};
use words::Mode;

// Where what is said next may not fit, it goes to a line of its own: a part, and the record behind
// a number's words.
const LATE: usize = 66;

const LATE_NUMBER: usize = 44;

// The speeds that the wheels are given; an order of the board's own always has them.
fn say_speeds(out: &mut Out, motors: &Motors) {
    match drive::wheel_speeds(motors.order, motors.first, motors.second) {
        Ok(
            Speeds {
                right,
                left,
                capped,
            },
        ) => {
            let capped = if capped { ", capped" } else { "" };
            say!(out, " (right {right}, left {left}{capped})");
        }
        Err(_) => out.say(b" (no speeds)"),
    }
}

// A wheel order as a record has it, and the speeds that the wheels are given.
fn say_wheels(out: &mut Out, motors: &Motors) {
    let (first, second) = (motors.first, motors.second);
    match motors.order {
        state::NO_ORDER => return out.say(b", wheels stopped"),
        state::DRIVE => say!(out, ", drive {first} {second}"),
        state::DIRECT => say!(out, ", direct {first} {second}"),
        order => say!(out, ", no such order ({order})"),
    }
    say_speeds(out, motors);
}

// The mode and the wheels of a record.
pub fn say_drive(out: &mut Out, state: &State) {
    say!(out, "{}", Mode(state.mode));
    say_wheels(out, &state.motors);
}

// A mark, and what comes next behind it: on this line, or on one of its own where this one is late.
fn mark(out: &mut Out, mark: char, late: usize) {
    if out.column() > late {
        say!(out, "{mark}\n    ");
    } else {
        say!(out, "{mark} ");
    }
}

// Before the next part.
fn lead(out: &mut Out) {
    mark(out, ',', LATE);
}

// Bytes that have changed, under a name.
fn say_bytes(out: &mut Out, name: &str, a: &[u8], b: &[u8]) {
    if a != b {
        lead(out);
        say!(out, "{name} {}", Listed::new(b));
    }
}

fn say_kept(out: &mut Out, a: &Kept, b: &Kept) {
    say_bytes(out, "LEDs", &a.leds, &b.leds);
    say_bytes(out, "baud code", &[a.baud], &[b.baud]);
    say_bytes(out, "outputs", &[a.outputs], &[b.outputs]);
    say_bytes(out, "IR byte", &[a.ir], &[b.ir]);
}

// The first song that has changed.
fn say_song(out: &mut Out, a: &Songs, b: &Songs) {
    for (i, (old, new)) in a.table.iter().zip(&b.table).enumerate() {
        if old == new {
            continue;
        }
        lead(out);
        match new.len {
            0 => say!(out, "song {i} has no notes"),
            1 => say!(out, "song {i} has a note"),
            n => say!(out, "song {i} has {n} notes"),
        }
        return;
    }
}

fn say_playing(out: &mut Out, a: u8, b: u8) {
    if a == b {
        return;
    }
    lead(out);
    match b {
        state::NO => say!(out, "not playing"),
        state::YES => say!(out, "playing"),
        _ => say!(out, "playing is {b}"),
    }
}

fn say_songs(out: &mut Out, a: &Songs, b: &Songs) {
    say_song(out, a, b);
    say_bytes(out, "song selected", &[a.selected], &[b.selected]);
    say_playing(out, a.playing, b.playing);
}

fn say_stream(out: &mut Out, a: &Stream, b: &Stream) {
    if a == b {
        return;
    }
    let count = b.count;
    lead(out);
    match b.on {
        state::NO => say!(out, "streaming off, list of {count}"),
        state::YES => say!(out, "streaming on, list of {count}"),
        on => say!(out, "streaming is {on}, list of {count}"),
    }
}

// How much of a frame is half read.
fn say_partial(out: &mut Out, partial: &Partial) {
    let (count, remaining) = (partial.count, partial.remaining);
    if count == 0 {
        return;
    }
    lead(out);
    if remaining > 0 {
        say!(out, "half read: {count} held, {remaining} to come");
    } else {
        say!(out, "half read: {count} held");
    }
}

// The record after a call, to the line's end: of what is not the mode and the wheels, as far as it
// has changed.
pub fn say_after(out: &mut Out, before: &State, after: &State) {
    mark(out, ';', LATE_NUMBER);
    say_drive(out, after);
    say_bytes(out, "duties", &before.motors.duties, &after.motors.duties);
    say_kept(out, &before.kept, &after.kept);
    say_songs(out, &before.songs, &after.songs);
    say_stream(out, &before.stream, &after.stream);
    say_partial(out, &after.partial);
    say!(out, "\n");
}
