// The board's calls. What came back of each is one line: what was given, the number in words, and
// the record after it.
use crate::session::{Came, MOST_ROOM, Session};
use crate::{answers, show};
use terminal::{Out, Write, say};

// A line that was typed is shown whole up to LABEL bytes, and of a longer one as much as was kept
// of it.
const LABEL: usize = 30;

const KEPT: usize = 32;

// The most bytes that stand before what came back.
const FEW: usize = 8;

// What was given, as it stands before what came back: what a person typed, or its beginning; a byte
// alone; some bytes, or the first of them and how many they are.
#[derive(Clone, Copy)]
enum Given<'a> {
    Typed(&'a [u8]),
    Byte(u8),
    Bytes(&'a [u8]),
}

impl Given<'_> {
    fn say(self, out: &mut Out) {
        match self {
            Given::Typed(text) if text.len() <= LABEL => out.say_shown(text),
            Given::Typed(text) => {
                out.say_shown(&text[..text.len().min(KEPT)]);
                out.say(b" ..");
            }
            Given::Byte(b) => say!(out, "byte {b}"),
            Given::Bytes(bytes) if bytes.len() <= FEW => out.say_joined(bytes, b" "),
            Given::Bytes(bytes) => {
                out.say_joined(&bytes[..bytes.len().min(FEW)], b" ");
                say!(out, " .. ({} bytes)", bytes.len());
            }
        }
    }
}

// The number in words, and the record after it.
fn say_back(out: &mut Out, session: &mut Session, given: Given<'_>, came: &Came<'_>) {
    given.say(out);
    out.say(b": ");
    out.say(words::meaning(came.refusal()).as_bytes());
    show::say_after(out, &session.state, &came.state);
    session.keep(came);
}

// What came back of a call by what was typed, unless it is counted as the same again.
pub fn say_call(out: &mut Out, session: &mut Session, typed: &[u8], came: &Came<'_>) {
    if !session.counts(came) {
        say_back(out, session, Given::Typed(typed), came);
    }
}

// A run over a part of the bytes of a line; how many of them were read.
fn give_part(
    out: &mut Out,
    session: &mut Session,
    typed: &[u8],
    part: &[u8],
    whole: usize,
) -> usize {
    let mut buffer = [0u8; MOST_ROOM];
    let came = session.run(part, &mut buffer);
    if session.counts(&came) {
        return came.read;
    }
    let read = &part[..came.read.min(part.len())];
    let given = match part.first() {
        Some(&b) if session.verbose => Given::Byte(b),
        _ if came.read == whole => Given::Typed(typed),
        _ => Given::Bytes(read),
    };
    let held = session.state.partial;
    say_back(out, session, given, &came);
    answers::say_answer(out, session.raw, &held, read, came.answer());
    came.read
}

// All frames of some bytes, one frame at a time or one byte; by the board's laws that comes to the
// same. Of a bad record nothing is read. A proved loop has to end: each turn but the last reads a
// byte.
pub fn give_bytes(out: &mut Out, session: &mut Session, typed: &[u8], bytes: &[u8]) {
    let mut left = bytes;
    for _ in 0..bytes.len() {
        let part = match left {
            [] => return,
            [_, ..] if session.verbose => &left[..1],
            _ => left,
        };
        let read = give_part(out, session, typed, part, bytes.len());
        if read == 0 {
            return;
        }
        left = &left[read.min(left.len())..];
    }
}

// One run: what it leaves unread is told.
pub fn give_run(out: &mut Out, session: &mut Session, typed: &[u8], bytes: &[u8]) {
    let mut buffer = [0u8; MOST_ROOM];
    let came = session.run(bytes, &mut buffer);
    let (read, unread) = bytes.split_at(came.read.min(bytes.len()));
    let held = session.state.partial;
    say_back(out, session, Given::Typed(typed), &came);
    if !unread.is_empty() {
        let (some, all) = (read.len(), bytes.len());
        say!(
            out,
            "    {some} of {all} bytes read, {} left unread\n",
            unread.len()
        );
    }
    answers::say_answer(out, session.raw, &held, read, came.answer());
}

pub fn give_tick(out: &mut Out, session: &mut Session, typed: &[u8]) {
    let mut buffer = [0u8; MOST_ROOM];
    let stream = session.state.stream;
    let came = session.tick(&mut buffer);
    say_call(out, session, typed, &came);
    answers::say_chunk(out, session.raw, &stream, came.answer());
}
