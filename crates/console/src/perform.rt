// A line, by its first word.
use crate::session::{MOST_ROOM, Next, Repeat, Report, Session};
use crate::show::say_drive;
use crate::{calls, help, record, send, stop};
use line::{NoNumber, Word};
use terminal::{Out, Text, Told, Write, say};

const MOST_TURNS: usize = 1000;

// A word that stands alone on its line.
#[derive(Clone, Copy, Debug, PartialEq, Eq)]
enum Alone {
    Tick,
    SongEnd,
    PowerOn,
    Stop,
    State,
    Accepts,
    Help,
    Verbose,
    Raw,
    Quit,
}

fn alone_named(word: &[u8]) -> Option<Alone> {
    match word {
        b"tick" => Some(Alone::Tick),
        b"song-end" => Some(Alone::SongEnd),
        b"power-on" => Some(Alone::PowerOn),
        b"stop" => Some(Alone::Stop),
        b"state" => Some(Alone::State),
        b"accepts?" => Some(Alone::Accepts),
        b"help" | b"?" => Some(Alone::Help),
        b"verbose" => Some(Alone::Verbose),
        b"raw" => Some(Alone::Raw),
        b"quit" => Some(Alone::Quit),
        _ => None,
    }
}

// A line, or what stands after `repeat`: its first word, what follows that, and all of it as it was
// typed.
#[derive(Clone, Copy)]
pub struct Line<'a> {
    pub first: Word<'a>,
    pub rest: Text<'a>,
    pub typed: &'a [u8],
}

impl<'a> Line<'a> {
    // None where no word is left.
    fn new(text: &Text<'a>) -> Option<Line<'a>> {
        let mut rest = *text;
        let first = rest.word()?;
        let typed = text.bytes.get(first.start..).unwrap_or(first.bytes);
        Some(Line { first, rest, typed })
    }
}

// A word that is bad, by the place where it stands.
fn say_bad(out: &mut Out, text: &Text<'_>, word: Word<'_>, why: &str) -> Told {
    text.say_where(out, word.start);
    out.say_shown(word.bytes);
    say!(out, " {why}\n");
    Told
}

// What a word wants, which it has not.
fn say_wants(out: &mut Out, text: &Text<'_>, place: usize, wants: &str) -> Told {
    text.say_where(out, place);
    say!(out, "{wants}\n");
    Told
}

// The words after `report`: which of the three it has; another word is bad. A proved loop has to
// end, and a line has no more words than bytes.
fn report_from(out: &mut Out, text: &mut Text<'_>) -> Result<Report, Told> {
    let mut report = Report {
        drop: false,
        cliff: false,
        charger: false,
    };
    for _ in 0..=text.bytes.len() {
        let Some(word) = text.word() else {
            break;
        };
        match word.bytes {
            b"drop" => report.drop = true,
            b"cliff" => report.cliff = true,
            b"charger" => report.charger = true,
            _ => return Err(say_bad(out, text, word, "is none of drop, cliff and charger")),
        }
    }
    Ok(report)
}

// The number that the next word says, up to a most.
fn count(text: &mut Text<'_>, most: usize) -> Option<usize> {
    let word = text.word()?;
    let n = line::unsigned(word.bytes).ok()?;
    (n <= most).then_some(n)
}

fn set_room(out: &mut Out, session: &mut Session, text: &mut Text<'_>) -> Result<(), Told> {
    let place = text.place();
    let Some(room) = count(text, MOST_ROOM) else {
        return Err(say_wants(out, text, place, "room wants a number from 0 to 1024"));
    };
    text.ends(out)?;
    say!(out, "room is {room}\n");
    session.room = room;
    Ok(())
}

fn set_image(out: &mut Out, session: &mut Session, text: &mut Text<'_>) -> Result<(), Told> {
    let place = text.at;
    let bytes = text.numbers(out)?;
    if bytes.len() != session.image.len() {
        text.say_wanted(out, place, session.image.len(), bytes.len());
        return Err(Told);
    }
    session.image.copy_from_slice(bytes.as_slice());
    say!(out, "image is set\n");
    Ok(())
}

fn power_on(out: &mut Out, session: &mut Session) {
    session.state = state::power_on();
    out.say(b"power-on: ");
    say_drive(out, &session.state);
    out.say(b"\n");
}

// Each is undone by saying it again.
fn switch(out: &mut Out, name: &str, is: &mut bool) {
    *is = !*is;
    say!(out, "{name} is {}\n", if *is { "on" } else { "off" });
}

fn song_end(out: &mut Out, session: &mut Session, typed: &[u8]) {
    let came = session.song_end();
    calls::say_call(out, session, typed, &came);
}

// What a word that stands alone says is done; the last one ends the session.
fn carry_out(out: &mut Out, session: &mut Session, word: Alone, typed: &[u8]) -> Next {
    match word {
        Alone::Tick => calls::give_tick(out, session, typed),
        Alone::SongEnd => song_end(out, session, typed),
        Alone::PowerOn => power_on(out, session),
        Alone::Stop => stop::stop(out, session),
        Alone::State => record::say_state(out, &session.state),
        Alone::Accepts => record::say_accepts(out, &session.state),
        Alone::Help => help::say_help(out),
        Alone::Verbose => switch(out, "verbose", &mut session.verbose),
        Alone::Raw => switch(out, "raw", &mut session.raw),
        Alone::Quit => return Next::End,
    }
    Next::Line
}

// A word that takes others after it.
fn with_words(out: &mut Out, session: &mut Session, line: &mut Line<'_>) -> Result<(), Told> {
    let text = &mut line.rest;
    match line.first.bytes {
        b"bytes" => {
            let bytes = text.numbers(out)?;
            calls::give_bytes(out, session, line.typed, bytes.as_slice());
        }
        b"run" => {
            let bytes = text.numbers(out)?;
            calls::give_run(out, session, line.typed, bytes.as_slice());
        }
        b"report" => {
            let came = session.report(report_from(out, text)?);
            calls::say_call(out, session, line.typed, &came);
        }
        b"room" => set_room(out, session, text)?,
        b"image" => set_image(out, session, text)?,
        b"set" => record::set(out, session, text)?,
        _ => {
            let why = "is no word of this console: help lists them";
            return Err(say_bad(out, text, line.first, why));
        }
    }
    Ok(())
}

fn by_word(out: &mut Out, session: &mut Session, line: &mut Line<'_>) -> Result<Next, Told> {
    if let Some(op) = words::opcode_named(line.first.bytes) {
        send::command(out, session, op, line)?;
        return Ok(Next::Line);
    }
    let Some(named) = alone_named(line.first.bytes) else {
        with_words(out, session, line)?;
        return Ok(Next::Line);
    };
    line.rest.ends(out)?;
    Ok(carry_out(out, session, named, line.typed))
}

// A line that begins with a number is bytes, and any other goes by its first word.
fn one_line(out: &mut Out, session: &mut Session, text: &Text<'_>) -> Result<Next, Told> {
    let Some(mut line) = Line::new(text) else {
        return Ok(Next::Line);
    };
    if line::signed(line.first.bytes) == Err(NoNumber::NotANumber) {
        return by_word(out, session, &mut line);
    }
    let mut numbers = *text;
    let bytes = numbers.numbers(out)?;
    calls::give_bytes(out, session, line.typed, bytes.as_slice());
    Ok(Next::Line)
}

// The line from here on, some times; a bad one ends it.
fn repeat_line(
    out: &mut Out,
    session: &mut Session,
    text: &Text<'_>,
    times: usize,
) -> Result<Next, Told> {
    for _ in 0..times {
        if one_line(out, session, text)? == Next::End {
            return Ok(Next::End);
        }
    }
    Ok(Next::Line)
}

// A line that begins with `repeat`: how often, and the line itself.
fn repeat(out: &mut Out, session: &mut Session, line: Line<'_>) -> Result<Next, Told> {
    let wants = "repeat wants a number from 1 to 1000, and the words of a line";
    let mut text = line.rest;
    let Some(times) = count(&mut text, MOST_TURNS).filter(|&n| n > 0) else {
        return Err(say_wants(out, &text, line.first.start, wants));
    };
    if text.peek().is_none() {
        return Err(say_wants(out, &text, text.place(), wants));
    }
    session.repeat = Some(Repeat::new());
    let next = repeat_line(out, session, &text, times);
    if let Some(repeat) = session.repeat.take()
        && repeat.same > 0
    {
        say!(out, "    and {} times more the same\n", repeat.same);
    }
    next
}

// A line; an empty one says nothing.
pub fn read_line(out: &mut Out, session: &mut Session, text: &Text<'_>) -> Result<Next, Told> {
    let Some(line) = Line::new(text) else {
        return Ok(Next::Line);
    };
    match line.first.bytes {
        b"repeat" => repeat(out, session, line),
        _ => one_line(out, session, text),
    }
}
