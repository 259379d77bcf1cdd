// A line as it is read, word by word: its numbers, and what is said of bad ones, with the line, the
// place, and what was wrong.
ghost use Rattle.std.specs.Prelude.{◌≡◌, ◌+◌, ◌≤◌, ◌<◌, length, min, take, IfOk, IfSome, MatchOption};
ghost use Rattle.line.specs.Text.{word_from, NoWord, IsWord};

use crate::output::Out;
use crate::say;
use line::{NoNumber, Number, Word};
use std::fmt;
use std::fmt::Write;

// The most numbers of a line.
pub const MOST: usize = 512;

// Numbers from 0 to 255, in the first places. It is copied as it is, which an `ArrayVec` is not: so
// it is an array with a count.
#[derive(Clone, Copy)]
pub struct Bytes {
    pub values: [u8; MOST],
    pub count: usize,
}

impl Bytes {
    pub fn new() -> Bytes
        ensures { result.count ≡ 0 }
    {
        Bytes {
            values: [0; MOST],
            count: 0,
        }
    }

    pub fn len(&self) -> usize
        ensures { result ≡ min self.now.count 512 }
    {
        self.count.min(MOST)
    }

    pub fn as_slice(&self) -> &[u8]
        ensures { result.now ≡ take (min self.now.count 512) self.now.values }
    {
        &self.values[..self.len()]
    }

    // One number more, where there is room for it.
    fn push(&mut self, b: u8)
        requires { self.old.count ≤ 512 }
        ensures { self.new.count ≤ 512 }
    {
        if let Some(place) = self.values.get_mut(self.count) {
            *place = b;
            self.count += 1;
        }
    }
}

// What was wrong has been said.
#[derive(Clone, Copy, Debug, PartialEq, Eq)]
pub struct Told;

// A line, or the front of one: its bytes, its number, and the place that is read next.
#[derive(Clone, Copy)]
pub struct Text<'a> {
    pub bytes: &'a [u8],
    pub number: usize,
    pub at: usize,
}

// What is wrong with a word that should say a byte.
#[derive(Clone, Copy, Debug, PartialEq, Eq)]
enum NoByte {
    NotANumber,
    Above,
    Below,
}

impl fmt::Display for NoByte {
    fn fmt<W: fmt::Write>(&self, f: &mut fmt::Formatter<W>) -> fmt::Result {
        f.write_str(match self {
            NoByte::NotANumber => "is not a number from 0 to 255",
            NoByte::Above => "is above 255",
            NoByte::Below => "is below 0",
        })
    }
}

fn byte_of(word: &[u8]) -> Result<u8, NoByte> {
    match line::signed(word) {
        Ok(Number::Plain(n)) => u8::try_from(n).map_err(|_| NoByte::Above),
        Ok(Number::Minus(_)) => Err(NoByte::Below),
        Err(NoNumber::TooLarge) => Err(NoByte::Above),
        Err(NoNumber::NotANumber) => Err(NoByte::NotANumber),
    }
}

// The number that a word says, from -(most + 1) to most, sixteen bits at the widest.
fn signed_of(word: &[u8], most: usize) -> Option<i16> {
    let value = match line::signed(word) {
        Ok(Number::Plain(n)) if n <= most => i32::try_from(n).ok()?,
        Ok(Number::Minus(n)) if n == 0 || n <= most.wrapping_add(1) => {
            i32::try_from(n).ok()?.checked_neg()?
        }
        _ => return None,
    };
    i16::try_from(value).ok()
}

impl<'a> Text<'a> {
    // The front of this line, up to a place, from where it is read next.
    pub fn up_to(&self, end: usize) -> Text<'a>
        ensures bytes { result.bytes.now ≡ take end self.now.bytes.now }
        ensures number { result.number ≡ self.now.number }
        ensures at { result.at ≡ self.now.at }
    {
        Text {
            bytes: &self.bytes[..end.min(self.bytes.len())],
            number: self.number,
            at: self.at,
        }
    }

    // The next word, which is not passed.
    pub fn peek(&self) -> Option<Word<'a>>
        ensures { MatchOption result (NoWord self.now.bytes.now self.now.at)
            (λ w. IsWord self.now.bytes.now self.now.at w.start w.bytes.now) }
    {
        line::next_word(self.bytes, self.at)
    }

    // The next word; the place moves on behind it.
    pub fn word(&mut self) -> Option<Word<'a>>
        ensures word { MatchOption result (NoWord self.old.bytes.now self.old.at)
            (λ w. IsWord self.old.bytes.now self.old.at w.start w.bytes.now) }
        ensures moves { MatchOption result (self.new.at ≡ self.old.at) (λ w. self.new.at ≡ w.start + length w.bytes.now) }
        ensures same_line { self.new.bytes.now ≡ self.old.bytes.now }
    {
        let word = self.peek()?;
        self.at = word.end();
        Some(word)
    }

    // Where the next word stands, or the line's end.
    pub fn place(&self) -> usize
        ensures { result ≡ (word_from self.now.bytes.now self.now.at).start }
    {
        match self.peek() {
            Some(word) => word.start,
            None => self.bytes.len(),
        }
    }

    // The bytes of the next word, none where there is none; the place moves on behind it.
    pub fn name(&mut self) -> &'a [u8]
        ensures { length result.now ≤ length self.old.bytes.now }
    {
        match self.word() {
            Some(word) => word.bytes,
            None => &[],
        }
    }

    // The place of a byte, from a place on.
    pub fn find(&self, from: usize, b: u8) -> Option<usize>
        ensures { IfSome result (λ i. (from ≤ i) × (i < length self.now.bytes.now)) }
    {
        let size = self.bytes.get(from..)?.iter().position(|&x| x == b)?;
        Some(from + size)
    }

    // The start of a message, with this line's number.
    pub fn say_where(&self, out: &mut Out, place: usize) {
        out.say_where(self.number, place);
    }

    // The numbers from 0 to 255 up to the line's end, 512 at most; one word more is told.
    pub fn numbers(&mut self, out: &mut Out) -> Result<Bytes, Told>
        ensures { IfOk result (λ b. b.count ≤ 512) }
    {
        let mut values = Bytes::new();
        for _ in 0..MOST {
            let Some(word) = self.word() else {
                return Ok(values);
            };
            match byte_of(word.bytes) {
                Ok(b) => {
                    values.push(b);
                }
                Err(fault) => {
                    self.say_where(out, word.start);
                    out.say_shown(word.bytes);
                    say!(out, " {fault}\n");
                    return Err(Told);
                }
            }
        }
        self.ends(out)?;
        Ok(values)
    }

    // What is said of too many numbers behind a place, or too few.
    pub fn say_wanted(&self, out: &mut Out, place: usize, wanted: usize, given: usize) {
        self.say_where(out, place);
        say!(out, "numbers wanted: {wanted}, given: {given}\n");
    }

    // A number with a sign. Its width has the numbers from -(most + 1) to most, sixteen bits at the
    // widest.
    pub fn signed(&mut self, out: &mut Out, most: usize) -> Result<i16, Told> {
        let place = self.place();
        let Some(word) = self.word() else {
            self.say_where(out, place);
            say!(out, "a number is missing\n");
            return Err(Told);
        };
        if let Some(v) = signed_of(word.bytes, most) {
            return Ok(v);
        }
        self.say_where(out, place);
        out.say_shown(word.bytes);
        let least = most.wrapping_add(1);
        say!(out, " is not a number from -{least} to {most}\n");
        Err(Told)
    }

    // The line is to end here; a word that is left over is told.
    pub fn ends(&mut self, out: &mut Out) -> Result<(), Told> {
        let Some(word) = self.word() else {
            return Ok(());
        };
        self.say_where(out, word.start);
        out.say_shown(word.bytes);
        out.say(b" is one word too many\n");
        Err(Told)
    }
}
