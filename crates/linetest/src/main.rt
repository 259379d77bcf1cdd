// Feeds the line reader an ordinary text, a long line, noise, a last line without a newline, and
// nothing, in blocks of eight bytes, and writes the lines and words that it finds, with their
// places counted from 1.
#![tactic(auto)]

ghost use Rattle.std.specs.Prelude.{◌+◌, ◌≤◌, ◌<◌, length, IfSome};

use line::{NoNumber, Number};
use terminal::{Out, Write, say};

// The most bytes of a line that are kept here.
const ROOM: usize = 24;

const BLOCK: usize = 8;

// A line as it is put together: the first bytes of it that are there, and whether some did not fit.
// An array and a size, since `line::gather` fills a slice that is lent.
#[derive(Drop)]
struct Held {
    bytes: [u8; ROOM],
    size: usize,
    cut: bool,
    ghost within: { size ≤ 24 },
}

impl Held {
    fn new() -> Held {
        Held {
            bytes: [0; ROOM],
            size: 0,
            cut: false,
        }
    }

    // Takes what a block has of the line from a place on; the place after its newline, if that is
    // there.
    fn gather(&mut self, block: &[u8], from: usize) -> Option<usize>
        ensures { IfSome result (λ n. (from < n) × (n ≤ length block.now)) }
    {
        let got = line::gather(block, from, &mut self.bytes, self.size);
        self.size = got.size;
        self.cut |= got.cut;
        got.next
    }

    fn say(&self, out: &mut Out) {
        let cut = if self.cut {
            ", the rest did not fit"
        } else {
            ""
        };
        say!(out, "  a line of {} bytes{cut}\n", self.size);
        say_words(out, &self.bytes[..self.size]);
    }
}

// What a word is as a number, and the end of its line.
fn say_value(out: &mut Out, word: &[u8]) {
    match line::signed(word) {
        Ok(Number::Plain(n)) => say!(out, ", number {n}\n"),
        Ok(Number::Minus(n)) => say!(out, ", number -{n}\n"),
        Err(NoNumber::TooLarge) => say!(out, ", a number too large\n"),
        Err(NoNumber::NotANumber) => say!(out, ", no number\n"),
    }
}

fn say_words(out: &mut Out, text: &[u8]) {
    let mut from = 0;
    while let Some(word) = line::next_word(text, from) {
        say!(out, "    place {}: ", word.start + 1);
        out.say_shown(word.bytes);
        say_value(out, word.bytes);
        from = word.end();
    }
}

// The lines of a block; a part of one is kept for the next block.
fn read_block(out: &mut Out, block: &[u8], held: &mut Held) {
    let mut from = 0;
    while let Some(next) = held.gather(block, from) {
        held.say(out);
        *held = Held::new();
        from = next;
    }
}

fn read_text(out: &mut Out, text: &[u8]) {
    let mut held = Held::new();
    for block in text.chunks(BLOCK) {
        read_block(out, block, &mut held);
    }
    if held.size > 0 || held.cut {
        say!(out, "  (no newline)\n");
        held.say(out);
    }
}

fn show(out: &mut Out, name: &str, text: &[u8]) {
    say!(out, "{name}");
    say!(out, ", {} bytes\n", text.len());
    read_text(out, text);
}

fn main() {
    let mut out = Out::new();
    show(
        &mut out,
        "ordinary",
        b"137 0 200 1 244\n\ndrive 200 -500\r\n  tick\t\n",
    );
    show(
        &mut out,
        "long",
        b"1 22 333 4444 55555 666666 7777777\n65535 65536 -65535\n",
    );
    show(
        &mut out,
        "noise",
        b"\x00\xff\x07 \x1b[2J\n- -- +1 1a 9999999999999999999999\x80\n",
    );
    show(&mut out, "no last newline", b"128\n131");
    show(&mut out, "newlines alone", b"\n\n");
    show(&mut out, "nothing", b"");
    out.flush();
}
