// One part of a record set by its name, by hand and not by a call: so a bad record is made.
//
//     mode N       order N (0 none, 1 Drive, 2 Direct)     first N, second N (the order's numbers)
//     duty I N     baud N     led I N     outputs N     ir N     selected N     playing N
//     length SONG N     note SONG I N     id I N     ids N (how many)     streaming N
//     held I N     stored N (how many bytes are held)     owed N
use state::State;
use terminal::{Out, Text, Told, Write, say};

#[derive(Clone, Copy, Debug, PartialEq, Eq)]
enum Setting {
    Mode,
    Order,
    First,
    Second,
    Duty,
    Baud,
    Led,
    Outputs,
    Ir,
    Selected,
    Playing,
    Length,
    Note,
    Id,
    Ids,
    Streaming,
    Held,
    Stored,
    Owed,
}

// The numbers of a setting, each below a limit: a place, a place in that, both where they are
// there, and a value.
#[derive(Clone, Copy)]
struct Limits {
    place: Option<usize>,
    inner: Option<usize>,
    value: usize,
}

// A number as it was read. A bad one has been said, and it has a value too, since the record is set
// by it all the same: the number's own where it is past its limit, and 0 where it is none.
#[derive(Clone, Copy)]
struct Part {
    value: i16,
    right: Result<(), Told>,
}

impl Setting {
    fn named(word: &[u8]) -> Option<Setting> {
        Some(match word {
            b"mode" => Setting::Mode,
            b"order" => Setting::Order,
            b"first" => Setting::First,
            b"second" => Setting::Second,
            b"duty" => Setting::Duty,
            b"baud" => Setting::Baud,
            b"led" => Setting::Led,
            b"outputs" => Setting::Outputs,
            b"ir" => Setting::Ir,
            b"selected" => Setting::Selected,
            b"playing" => Setting::Playing,
            b"length" => Setting::Length,
            b"note" => Setting::Note,
            b"id" => Setting::Id,
            b"ids" => Setting::Ids,
            b"streaming" => Setting::Streaming,
            b"held" => Setting::Held,
            b"stored" => Setting::Stored,
            b"owed" => Setting::Owed,
            _ => return None,
        })
    }

    fn limits(self) -> Limits {
        let (place, inner, value) = match self {
            Setting::First | Setting::Second => (None, None, 65536),
            Setting::Stored | Setting::Owed => (None, None, 32768),
            Setting::Duty | Setting::Led => (Some(3), None, 256),
            Setting::Length | Setting::Id => (Some(16), None, 256),
            Setting::Note => (Some(16), Some(32), 256),
            Setting::Held => (Some(35), None, 256),
            _ => (None, None, 256),
        };
        Limits {
            place,
            inner,
            value,
        }
    }
}

impl Part {
    // The sixteen bits of the number, as it is compared with a limit: one below 0 is above 32767.
    fn bits(self) -> usize {
        usize::from(self.value.cast_unsigned())
    }

    // A number below a limit.
    fn below(out: &mut Out, text: &mut Text<'_>, limit: usize) -> Part {
        let place = text.at;
        let read = text.signed(out, 32767);
        let part = Part {
            value: read.unwrap_or(0),
            right: read.map(|_| ()),
        };
        if part.bits() < limit {
            return part;
        }
        text.say_where(out, place);
        say!(
            out,
            "the number after this place is too large, or below 0\n"
        );
        Part {
            right: Err(Told),
            ..part
        }
    }

    // A place, where the setting has one.
    fn place(out: &mut Out, text: &mut Text<'_>, limit: Option<usize>) -> Part {
        match limit {
            Some(limit) => Part::below(out, text, limit),
            None => Part {
                value: 0,
                right: Ok(()),
            },
        }
    }
}

// A byte at a place, where there is such a place.
fn put(bytes: &mut [u8], place: usize, b: u8) {
    if let Some(byte) = bytes.get_mut(place) {
        *byte = b;
    }
}

fn set(state: &mut State, setting: Setting, place: usize, inner: usize, value: Part) {
    let b = wire::low16(value.value);
    match setting {
        Setting::Mode => state.mode = b,
        Setting::Order => state.motors.order = b,
        Setting::First => state.motors.first = value.value,
        Setting::Second => state.motors.second = value.value,
        Setting::Duty => put(&mut state.motors.duties, place, b),
        Setting::Baud => state.kept.baud = b,
        Setting::Led => put(&mut state.kept.leds, place, b),
        Setting::Outputs => state.kept.outputs = b,
        Setting::Ir => state.kept.ir = b,
        Setting::Selected => state.songs.selected = b,
        Setting::Playing => state.songs.playing = b,
        Setting::Length => {
            if let Some(song) = state.songs.table.get_mut(place) {
                song.len = b;
            }
        }
        Setting::Note => {
            if let Some(song) = state.songs.table.get_mut(place) {
                put(&mut song.notes, inner, b);
            }
        }
        Setting::Id => put(&mut state.stream.ids, place, b),
        Setting::Ids => state.stream.count = b,
        Setting::Streaming => state.stream.on = b,
        Setting::Held => put(&mut state.partial.bytes, place, b),
        Setting::Stored => state.partial.count = value.bits(),
        Setting::Owed => state.partial.remaining = value.bits(),
    }
}

pub fn is_part(word: &[u8]) -> bool {
    Setting::named(word).is_some()
}

// A part by its name and its numbers. Each bad number is told, and what is set then stays in the
// record.
pub fn set_part(out: &mut Out, state: &mut State, text: &mut Text<'_>) -> Result<(), Told> {
    let start = text.place();
    let word = text.name();
    let Some(setting) = Setting::named(word) else {
        text.say_where(out, start);
        out.say_shown(word);
        out.say(b" is no part of a record\n");
        return Err(Told);
    };
    let limits = setting.limits();
    let place = Part::place(out, text, limits.place);
    let inner = Part::place(out, text, limits.inner);
    let value = Part::below(out, text, limits.value);
    set(state, setting, place.bits(), inner.bits(), value);
    place.right.and(inner.right).and(value.right)
}
