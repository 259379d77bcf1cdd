// What was given: counted and digested, or in hexadecimal.
use crate::calls::Given;
use crate::layout::Sink;
use terminal::{Out, Write, say};

// The greatest prime below 2 to the 32nd.
const PRIME: u64 = 4_294_967_291;

// The digest of the bytes put so far.
#[derive(Clone, Copy)]
pub struct Digest(u64);

impl Sink for Digest {
    // The first remainder changes nothing; by it the product fits, whatever stood there.
    fn put(&mut self, bytes: &[u8]) {
        self.0 = bytes.iter().fold(self.0, |digest, &b| {
            (digest % PRIME * 16_777_619 + u64::from(b) + 1) % PRIME
        });
    }
}

// How many calls, how often each number was given, the bytes answered, and the digest.
#[derive(Clone, Copy)]
pub struct Tally {
    calls: usize,
    numbers: [usize; 10],
    bytes: usize,
    pub digest: Digest,
}

impl Tally {
    pub fn new() -> Tally {
        Tally {
            calls: 0,
            numbers: [0; 10],
            bytes: 0,
            digest: Digest(1),
        }
    }

    fn count(&mut self, given: Given) {
        self.calls = self.calls.wrapping_add(1);
        self.bytes = self.bytes.wrapping_add(given.length());
        if let Some(n) = self.numbers.get_mut(usize::from(given.number())) {
            *n = n.wrapping_add(1);
        }
    }

    // A call, counted and in the digest, up to the record after it.
    pub fn put_call(&mut self, given: Given, answer: &[u8]) {
        self.count(given);
        self.digest.put(&[given.number()]);
        self.digest.put_word(answer.len());
        self.digest.put_word(given.read);
        self.digest.put(answer);
    }

    pub fn say(&self, out: &mut Out) {
        say!(out, "calls {} numbers", self.calls);
        for n in &self.numbers {
            say!(out, " {n}");
        }
        say!(out, " bytes {} digest {}\n", self.bytes, self.digest.0);
    }
}

// The most bytes that become text at once: more than the longest answer has.
const PART: usize = 1024;

// Bytes in hexadecimal, to standard output.
#[derive(Drop)]
pub struct Trace<'a> {
    pub out: &'a mut Out,
}

fn digit(n: u8) -> u8 {
    if n < 10 { b'0' + n } else { b'a' - 10 + n % 16 }
}

fn hexadecimal(b: u8) -> [u8; 2] {
    [digit(b / 16), digit(b % 16)]
}

// Many bytes become text at once: a record has 602, each by `{b:02x}` cost four times as much.
impl Sink for Trace<'_> {
    fn put(&mut self, bytes: &[u8]) {
        for part in bytes.chunks(PART) {
            let mut text = [[0u8; 2]; PART];
            for (to, &b) in text.iter_mut().zip(part) {
                *to = hexadecimal(b);
            }
            self.out.say(text[..part.len().min(PART)].as_flattened());
        }
    }
}

impl Trace<'_> {
    // The line of a call, up to the record after it.
    pub fn put_call(&mut self, given: Given, answer: &[u8]) {
        let nothing = if answer.is_empty() { "-" } else { "" };
        say!(
            self.out,
            "{} {} {} {nothing}",
            given.number(),
            answer.len(),
            given.read
        );
        self.put(answer);
        self.out.say(b" ");
    }
}
