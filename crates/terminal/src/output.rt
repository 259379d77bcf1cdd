// Text to standard output.
ghost use Rattle.std.specs.Prelude.{◌≡◌, ◌+◌, ◌%◌, ◌^◌, ◌≤◌, ◌<◌, length, IfSome};
ghost use Rattle.terminal.specs.Columns.{columns_after};

use crate::say;
use arrayvec::ArrayVec;
use std::fmt;
use std::fmt::Write;

const STDOUT: i32 = 1;

const STDERR: i32 = 2;

// The most of a piece that is said in parts.
const ROOM: usize = 256;

// Standard output: a piece of which more may be said, the columns of its last line, and whether it
// has been told that it cannot be written.
#[derive(Drop)]
pub struct Out {
    piece: ArrayVec<u8, ROOM>,
    column: usize,
    told: bool,
}

// Output that cannot be written is told once, where it still may be seen.
fn write_or_tell(text: &[u8], told: &mut bool) {
    if !io::write_all(STDOUT, text) && !*told {
        *told = true;
        io::write_all(STDERR, b"standard output cannot be written\n");
    }
}

// The column after a text that has no newline. Every byte is looked at, so that many are at once.
fn columns_past(column: usize, text: &[u8]) -> Option<usize>
    ensures { IfSome result (λ c. c ≡ columns_after column text.now) }
{
    let mut newline = false;
    for &b in text {
        if b == b'\n' {
            newline = true;
        }
    }
    if newline {
        return None;
    }
    Some(column.wrapping_add(text.len()))
}

// The column after a text. One that has a newline is looked at from its end: what stands before its
// last newline does not count.
fn columns_behind(column: usize, text: &[u8]) -> usize
    ensures { result ≡ columns_after column text.now }
{
    if let Some(column) = columns_past(column, text) {
        return column;
    }
    let mut added = 0;
    while added < text.len() {
        let last = text[text.len() - added - 1];
        if last == b'\n' {
            return added;
        }
        added += 1;
    }
    column.wrapping_add(added)
}

impl Out {
    pub fn new() -> Out
        ensures { result.column ≡ 0 }
    {
        Out {
            piece: ArrayVec::new(),
            column: 0,
            told: false,
        }
    }

    // How many columns the line has that is being written.
    pub fn column(&self) -> usize
        ensures { result ≡ self.now.column }
    {
        self.column
    }

    // What comes next begins a line for the person who reads: an answer was typed behind a prompt.
    pub fn begin_line(&mut self)
        ensures { self.new.column ≡ 0 }
    {
        self.column = 0;
    }

    // What there is of a piece is written, by one write.
    pub fn flush(&mut self)
        ensures { self.new.column ≡ self.old.column }
    {
        if !self.piece.is_empty() {
            write_or_tell(self.piece.as_slice(), &mut self.told);
            self.piece.clear();
        }
    }

    // More of a piece. What does not fit behind it begins another.
    fn add(&mut self, text: &[u8])
        ensures { self.new.column ≡ columns_after self.old.column text.now }
    {
        if self.piece.remaining_capacity() < text.len() {
            self.flush();
        }
        if self.piece.try_extend_from_slice(text).is_err() {
            write_or_tell(text, &mut self.told);
        }
        self.column = columns_behind(self.column, text);
    }

    // Text as it is, as one piece.
    pub fn say(&mut self, text: &[u8])
        ensures { self.new.column ≡ columns_after self.old.column text.now }
    {
        self.flush();
        write_or_tell(text, &mut self.told);
        self.column = columns_behind(self.column, text);
    }

    // Numbers, with any bytes between them, each a piece; `Listed` is for those within a text.
    pub fn say_joined(&mut self, bytes: &[u8], between: &[u8]) {
        for (i, b) in bytes.iter().enumerate() {
            if i > 0 {
                self.say(between);
            }
            say!(self, "{b}");
        }
    }

    // Text that a person typed, each byte of it a piece, and a column, since none is a newline.
    pub fn say_shown(&mut self, text: &[u8])
        ensures { self.new.column ≡ (self.old.column + length text.now) % 2 ^ 64 }
    {
        self.flush();
        for &b in text {
            write_or_tell(&[visible(b)], &mut self.told);
        }
        self.column = self.column.wrapping_add(text.len());
    }

    // The start of a message, where what was wrong follows as pieces of its own.
    pub fn say_where(&mut self, line: usize, place: usize) {
        say!(self, "{}", Where { line, place });
    }

    // Spaces up to a column.
    pub fn pad(&mut self, width: usize) {
        for _ in self.column..width {
            self.say(b" ");
        }
    }
}

impl fmt::Write for Out {
    fn write_str(&mut self, text: &str) -> fmt::Result {
        self.add(text.as_bytes());
        Ok(())
    }
}

// `write!` to standard output, as one piece. No error is left to handle: what cannot be written,
// `Out` tells.
#[macro_export]
macro_rules! say {
    ($out:expr, $($text:tt)*) => {{
        let _ = write!($out, $($text)*);
        $out.flush();
    }};
}

// The start of a message: where a person finds what was wrong. A place is told counted from 1.
#[derive(Clone, Copy)]
pub struct Where {
    pub line: usize,
    pub place: usize,
}

impl fmt::Display for Where {
    fn fmt<W: fmt::Write>(&self, f: &mut fmt::Formatter<W>) -> fmt::Result {
        let (line, place) = (self.line, self.place.wrapping_add(1));
        write!(f, "line {line}: place {place}: ")
    }
}

// A byte that a terminal would not show is written as a dot.
fn visible(b: u8) -> u8
    ensures { (32 ≤ result) × (result < 127) }
{
    if (32..127).contains(&b) { b } else { b'.' }
}

// Text that a person typed, as it is shown.
#[derive(Clone, Copy)]
pub struct Shown<'a>(pub &'a [u8]);

impl fmt::Display for Shown<'_> {
    fn fmt<W: fmt::Write>(&self, f: &mut fmt::Formatter<W>) -> fmt::Result {
        for &b in self.0 {
            f.write_char(char::from(visible(b)))?;
        }
        Ok(())
    }
}

// Numbers, with a text between them.
#[derive(Clone, Copy)]
pub struct Listed<'a> {
    pub bytes: &'a [u8],
    pub between: &'a str,
}

impl<'a> Listed<'a> {
    // With a blank between them.
    pub fn new(bytes: &'a [u8]) -> Listed<'a> {
        Listed {
            bytes,
            between: " ",
        }
    }
}

impl fmt::Display for Listed<'_> {
    fn fmt<W: fmt::Write>(&self, f: &mut fmt::Formatter<W>) -> fmt::Result {
        for (i, b) in self.bytes.iter().enumerate() {
            if i > 0 {
                f.write_str(self.between)?;
            }
            write!(f, "{b}")?;
        }
        Ok(())
    }
}
