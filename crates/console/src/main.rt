// A board that a person can try. It reads lines from standard input, gives what they say to the
// board, and writes what comes back, one line for a command. A bad line gets a message with its
// line and place, and does nothing.
#![tactic(auto)]

mod answers;
mod calls;
mod help;
mod perform;
mod record;
mod send;
mod session;
mod show;
mod stop;

use session::{Next, Session};
use std::env::FillError;
use std::io::{IsTerminal, Stdin};
use std::rt::Env;
use terminal::{Input, Out, Text, Unread, Write, say};

// The most bytes of a line that are read.
const LONGEST: usize = 4096;

// Where the last word ends that stands before a comment.
fn words_end(text: &[u8]) -> usize {
    let end = text.iter().position(|&b| b == b'#').unwrap_or(text.len());
    match text[..end].iter().rposition(|&b| b > b' ') {
        Some(last) => last + 1,
        None => 0,
    }
}

// A line without its comment and the blanks at its end. A bad one has been told, and the next is
// read.
fn take_line(out: &mut Out, session: &mut Session, line: Text<'_>) -> Next {
    let text = line.up_to(words_end(line.bytes));
    perform::read_line(out, session, &text).unwrap_or(Next::Line)
}

// A line, or why there is none where a person would not know it; `number` is the last line's.
fn take(
    out: &mut Out,
    session: &mut Session,
    came: Result<Option<Text<'_>>, Unread>,
    number: usize,
) -> Next {
    match came {
        Ok(Some(line)) => return take_line(out, session, line),
        Ok(None) if number == 0 => say!(out, "no input: nothing was read\n"),
        Ok(None) => {}
        Err(Unread::Failed) => say!(out, "standard input cannot be read\n"),
        Err(Unread::TooLong) => {
            say!(
                out,
                "line {number}: longer than {LONGEST} bytes, and not read\n"
            );
            return Next::Line;
        }
    }
    Next::End
}

// A prompt is answered by a line, so that what comes next begins one.
fn prompt(out: &mut Out, asks: bool) {
    if asks {
        say!(out, "> ");
        out.begin_line();
    }
}

// A proved loop has to end, and nothing says that the input does: the turns count up to a number
// that no run reaches.
fn read_all(out: &mut Out, stdin: Stdin, asks: bool) {
    let mut session = Session::new();
    let mut room = [0u8; LONGEST];
    let mut input = Input::new(stdin);
    for _ in 0..u64::MAX {
        prompt(out, asks);
        let came = input.next_line(out, &mut room);
        if take(out, &mut session, came, input.number()) == Next::End {
            return;
        }
    }
}

// The console takes no argument; one is told, and what it takes instead.
fn say_argument(out: &mut Out, word: &[u8]) {
    match word {
        b"--help" => help::say_help(out),
        _ => {
            out.say_shown(word);
            say!(
                out,
                ": the console knows no such argument; it reads lines, and `help` lists its words\n"
            );
        }
    }
}

fn begin(out: &mut Out, stdin: Stdin) {
    let asks = stdin.is_terminal();
    if asks {
        say!(
            out,
            "A board at power-on. `help` lists the words, `quit` ends it.\n"
        );
    }
    read_all(out, stdin, asks);
}

fn main(rt: HostRuntime) {
    let mut out = Out::new();
    let mut word = [0u8; 64];
    match rt.arg(1, &mut word) {
        Ok(n) => say_argument(&mut out, &word[..n]),
        Err(FillError::TooLong) => say_argument(&mut out, b""),
        Err(FillError::NotPresent) => begin(&mut out, rt.stdin()),
    }
    out.flush();
}
