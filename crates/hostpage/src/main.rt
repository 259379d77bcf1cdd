// Fills in a template, read from standard input, with what the proved libraries give:
// crates/hostpage/stdin becomes docs/HOST.md, the page for people who write hosts. Text is the
// template's; every byte, mode, number and length that the board or the writer decides is asked of
// them here.
//
// A line that does not begin with @ is copied, and its fields, names in braces, are replaced. A
// line that begins with @ is one of
//     @# TEXT              a remark: nothing is written
//     @do ACT ; ACT ..     performs the acts
//     @form TEXT           the layout of the rows that follow, with fields
//     @row ACT ; .. | REST performs the acts and writes a row in that layout
// An act is a command by its name and values, as `words` reads them (drive 200 500), written by the
// host-side writer and given to the board; or one of
//     power-on             the record as at power-on, and buffers of 1024 bytes; the bytes given
//                          are kept from here on
//     bytes N ..           these bytes in one run, for what the writer refuses or a frame that is
//                          half sent
//     opcode N             the command of any opcode without data, for what has no name
//     room N               buffers of 0 to 255 bytes, lent to the writer and to the board
//     image P N            a byte of the sensor image, at place P
//     tick, wheel-drop, cliff, charger   a tick; a safety report of that alone
//     mode N, ..           a part of the record set by hand, by the names of `words`
// The record, the image and the room are carried from line to line. A field says what came of the
// last act: `fields` lists them. A bad line gets a message with its line and place, and the rest of
// the template is still filled in.
#![tactic(auto)]

mod acts;
mod fields;
mod page;

use acts::perform;
use arrayvec::ArrayVec;
use fields::fill;
use page::{Fault, Form, LONGEST, Page, say_fault};
use terminal::{Input, Out, Text, Unread};

// The layout of rows from here on.
fn set_form(out: &mut Out, page: &mut Page, text: Text<'_>) {
    let mut line = ArrayVec::new();
    if line.try_extend_from_slice(text.bytes).is_err() {
        say_fault(out, &text, 256, Fault::LongForm);
        return;
    }
    page.form = Some(Form {
        line,
        number: text.number,
    });
}

// The acts of a row, and the row: its layout begins after `@form `.
fn row(out: &mut Out, page: &mut Page, text: Text<'_>) {
    let bar = text.find(text.at, b'|').unwrap_or(text.bytes.len());
    perform(out, page, text.up_to(bar));
    let Some(form) = &page.form else {
        say_fault(out, &text, 0, Fault::NoForm);
        return;
    };
    let cells = Text {
        at: bar.saturating_add(1),
        ..text
    };
    let layout = Text {
        bytes: form.line.as_slice(),
        number: form.number,
        at: 6,
    };
    let rest = cells.bytes.get(cells.place()..).unwrap_or(b"");
    fill(out, page, layout, rest);
}

// A line that begins with @.
fn by_directive(out: &mut Out, page: &mut Page, mut text: Text<'_>) {
    let Some(word) = text.word() else {
        return;
    };
    match word.bytes {
        b"@#" => (),
        b"@do" => perform(out, page, text),
        b"@form" => set_form(out, page, text),
        b"@row" => row(out, page, text),
        _ => say_fault(out, &text, word.start, Fault::NoDirective),
    }
}

fn take(out: &mut Out, page: &mut Page, text: Text<'_>) {
    match text.bytes {
        [b'@', ..] => by_directive(out, page, text),
        _ => fill(out, page, text, b""),
    }
}

// A proved loop has to end, and nothing says that the input does: the turns count up to a number
// that no run reaches.
fn main(rt: HostRuntime) {
    let mut out = Out::new();
    let mut input = Input::new(rt.stdin());
    let mut room = [0u8; LONGEST];
    let mut page = Page::new();
    for _ in 0..u64::MAX {
        let read = input.next_line(&mut out, &mut room);
        let nothing = Text {
            bytes: b"",
            number: input.number(),
            at: 0,
        };
        match read {
            Ok(Some(text)) => take(&mut out, &mut page, text),
            Ok(None) => break,
            Err(Unread::TooLong) => say_fault(&mut out, &nothing, LONGEST, Fault::LongLine),
            Err(Unread::Failed) => {
                say_fault(&mut out, &nothing, 0, Fault::NotRead);
                break;
            }
        }
    }
    out.flush();
}
