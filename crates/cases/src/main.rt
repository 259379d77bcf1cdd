// Cases of the rules (docs/RULES.md) and the worked examples of the sources, run through the public
// calls and compared. They are data: a line of standard input has a case and what is expected of
// it. The program writes each line with what came back behind it, marks those that differ, and ends
// with how many lines it compared and how many of them differ.
//
// The language is described at the head of `stdin`. In short, of the lines that are compared:
//
//     record NAME START | START                            a record by name, the same by hand
//     frame BYTES | DATA | NUMBERS | RULE                  the frame table, in all four modes
//     case START | CALL | BACK | START | RULE              one call from a record
//     held START | BYTE | BACK | START | RULE              the run table
//     bad START | BACK | START | BACK | RULE               a bad record and its good neighbour
//     write START | COMMAND | BACK | BACK | START | RULE   the writer, the board on its bytes
//     speeds START | EXACT | BACK | RULE                   the wheel speeds of a record's order
#![tactic(auto)]

mod cases;
mod fields;
mod give;
mod row;
mod session;
mod start;

use row::{Kind, Row};
use session::{Fault, Session};
use terminal::{Input, Out, Text, Unread};

// The most bytes of a line that are read.
const LONGEST: usize = 1024;

// The end of a line that is written.
fn end_row(out: &mut Out, differs: bool) {
    out.say(if differs { b"  DIFFERS\n" } else { b"\n" });
}

// A line that is compared; one that cannot be read counts as one that differs.
fn compare(out: &mut Out, session: &mut Session, kind: Kind, text: Text<'_>) {
    let Ok(row) = Row::read_from(out, session, kind, text) else {
        session.count(true);
        return;
    };
    out.say(text.bytes);
    let differs = row.differs(out, session);
    end_row(out, differs);
    session.count(differs);
    session.then = row.then();
    if let Row::Record(row) = row {
        session.define(row.name, row.state);
    }
}

// A heading, or an empty line.
fn heading(out: &mut Out, text: Text<'_>) {
    out.say(text.bytes);
    end_row(out, false);
}

// A line by its first word; a word that is none is told.
fn take_line(out: &mut Out, session: &mut Session, line: Text<'_>) {
    if line.bytes.is_empty() {
        return heading(out, line);
    }
    let mut text = line;
    let word = text.name();
    match (word, Kind::named(word)) {
        (b"#", _) => {}
        (b"=", _) => heading(out, text),
        (_, Some(kind)) => compare(out, session, kind, text),
        (_, None) => {
            Fault::NoKind.tell(out, text.number, 0);
            session.count(true);
        }
    }
}

// The lines up to the end of the input. A proved loop has to end, and nothing says that the input
// does: the turns count up to a number that no run reaches.
fn take_lines(out: &mut Out, session: &mut Session, input: &mut Input) {
    let mut room = [0u8; LONGEST];
    for _ in 0..u64::MAX {
        match input.next_line(out, &mut room) {
            Ok(Some(text)) => take_line(out, session, text),
            Ok(None) => return,
            Err(Unread::TooLong) => {
                Fault::TooLong.tell(out, input.number(), LONGEST);
                session.count(true);
            }
            Err(Unread::Failed) => {
                Fault::NoInput.tell(out, input.number(), 0);
                return;
            }
        }
    }
}

fn main(rt: HostRuntime) {
    let mut out = Out::new();
    let mut session = Session::new();
    let mut input = Input::new(rt.stdin());
    take_lines(&mut out, &mut session, &mut input);
    session.say_counts(&mut out);
    out.flush();
}
