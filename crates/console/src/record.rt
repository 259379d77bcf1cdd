// The record itself: set part by part, tested item by item, and shown whole.
use crate::session::Session;
use crate::show::say_drive;
use state::{Song, State};
use terminal::{Listed, Out, Text, Told, Write, say};

// The items of the record's test, in its order, as what breaks them; `state::broken` marks them in
// the same order.
const ITEMS: [&str; 16] = [
    "the mode is none of Off, Passive, Safe and Full",
    "the wheel order is of no kind: 0 none, 1 Drive, 2 Direct",
    "in Off and Passive the wheels and the three drivers must be off",
    "the wheel order is out of range",
    "a duty is above 128",
    "the outputs are above 7",
    "the baud code is above 11",
    "the selected song is above 15",
    "the stream list is too long, has an id above 42, or its sizes are more than 255 in all",
    "a song has more than 16 notes",
    "a song plays that is not set",
    "a place of a song behind its notes is not 0",
    "a place of the stream list behind its ids is not 0",
    "the frame half read is none that the frame table leaves",
    "playing is neither 0 nor 1",
    "streaming is neither 0 nor 1",
];

// Parts by their names, up to the line's end; all of them, or the record stays as it was. A proved
// loop has to end, and a line has no more words than bytes.
pub fn set(out: &mut Out, session: &mut Session, text: &mut Text<'_>) -> Result<(), Told> {
    if text.peek().is_none() {
        text.say_where(out, text.at);
        say!(
            out,
            "set wants the name of a part and its value, as in set mode 2\n"
        );
        return Err(Told);
    }
    let mut state = session.state;
    for _ in 0..=text.bytes.len() {
        if text.peek().is_none() {
            break;
        }
        words::set_part(out, &mut state, text)?;
    }
    session.state = state;
    if state::accepts(state) {
        out.say(b"set: an accepted record; ");
    } else {
        out.say(b"set: a bad record (accepts? tells why); ");
    }
    say_drive(out, &state);
    out.say(b"\n");
    Ok(())
}

pub fn say_accepts(out: &mut Out, state: &State) {
    if state::accepts(*state) {
        say!(out, "accepts?: yes\n");
        return;
    }
    say!(
        out,
        "accepts?: no, a bad record, which every call answers with 8:\n"
    );
    for (item, broken) in ITEMS.iter().zip(state::broken(*state)) {
        if broken != 0 {
            say!(out, "    {item}\n");
        }
    }
}

// The numbers of the songs that are set.
fn say_set_songs(out: &mut Out, table: &[Song]) {
    if table.iter().all(|song| song.len == 0) {
        out.say(b" none");
    }
    for (i, song) in table.iter().enumerate() {
        if song.len > 0 {
            out.say(b" ");
            say!(out, "{i}");
        }
    }
}

// The first of some places, which are in use: as many as a count says, which in a bad record may be
// any.
fn say_used(out: &mut Out, places: &[u8], count: usize) {
    match &places[..count.min(places.len())] {
        [] => out.say(b" none"),
        used => {
            out.say(b" ");
            out.say_joined(used, b" ");
        }
    }
    out.say(b"\n");
}

fn say_kept(out: &mut Out, state: &State) {
    let duties = Listed::new(&state.motors.duties);
    let leds = Listed::new(&state.kept.leds);
    let outputs = state.kept.outputs;
    say!(
        out,
        "    duties of drivers 0, 1 and 2: {duties}; LEDs {leds}; outputs {outputs}\n"
    );
    say!(
        out,
        "    baud code {}, IR byte {}\n",
        state.kept.baud,
        state.kept.ir
    );
}

fn say_stream(out: &mut Out, state: &State) {
    let stream = &state.stream;
    say!(out, "    streaming {}, stream list:", stream.on);
    say_used(out, &stream.ids, usize::from(stream.count));
}

fn say_partial(out: &mut Out, state: &State) {
    let (count, remaining) = (state.partial.count, state.partial.remaining);
    say!(out, "    {count} bytes held, {remaining} to come:");
    say_used(out, &state.partial.bytes, count);
}

// The whole record, for a person who asks for it.
pub fn say_state(out: &mut Out, state: &State) {
    say_drive(out, state);
    out.say(b"\n");
    say_kept(out, state);
    let songs = &state.songs;
    let (selected, playing) = (songs.selected, songs.playing);
    say!(
        out,
        "    song selected {selected}, playing {playing}, songs set:"
    );
    say_set_songs(out, &songs.table);
    out.say(b"\n");
    say_stream(out, state);
    say_partial(out, state);
}
