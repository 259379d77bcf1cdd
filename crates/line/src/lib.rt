// Lines of text, their words, and the numbers that words say, for a program that reads what a
// person types. Places are indices of the line, from 0.
#![tactic(auto)]

ghost use Rattle.std.specs.Prelude.{◌≡◌, ◌+◌, ◌*◌, ◌≤◌, ◌<◌, ◌^◌, not, length, IfOk, MatchOption};
ghost use Rattle.std.specs.List.{prefix_len};
ghost use Rattle.line.specs.Text.{is_blank, is_newline, largest, size_of, numeral_of, unsigned_of, signed_of, NoWord, IsWord, IsGathered};

// What a word says as a number.
#[derive(Clone, Copy, Debug, PartialEq, Eq)]
pub enum Number {
    Plain(usize),
    // With a minus sign.
    Minus(usize),
}

// Why a word says no number.
#[derive(Clone, Copy, Debug, PartialEq, Eq)]
pub enum NoNumber {
    NotANumber,
    // Above 65535.
    TooLarge,
}

// A word of a text, and the place of its first byte.
#[derive(Clone, Copy)]
pub struct Word<'a> {
    pub bytes: &'a [u8],
    pub start: usize,
    pub ghost fits: { start + length bytes.now < 2 ^ 64 },
}

impl Word<'_> {
    // The place after its last byte.
    pub fn end(&self) -> usize
        ensures { result ≡ self.now.start + length self.now.bytes.now }
    {
        self.start + self.bytes.len()
    }
}

// What a part of a line leaves: the place in the block after its newline, where that is there, how
// many bytes the line has now, and whether bytes did not fit.
#[derive(Clone, Copy, Debug, PartialEq, Eq)]
pub struct Gathered {
    pub next: Option<usize>,
    pub size: usize,
    pub cut: bool,
}

// The greatest number that is read.
const LARGEST: u32 = 65535;

// A space, a tab, or the carriage return of a line that ends in two bytes.
fn is_blank(b: u8) -> bool
    ensures { result ≡ is_blank b }
{
    matches!(b, b' ' | b'\t' | b'\r')
}

// The three below differ in their test. One function over it would have to carry the test's
// definition into its contract, and would be longer than a line.

// How many bytes at the front are blanks.
fn blanks(text: &[u8]) -> usize
    ensures value { result ≡ prefix_len is_blank text.now }
    ensures bound { result ≤ length text.now }
{
    text.iter().take_while(|&&b| is_blank(b)).count()
}

// How many bytes at the front are none, as those of a word.
fn word_size(text: &[u8]) -> usize
    ensures value { result ≡ prefix_len (λ b. not (is_blank b)) text.now }
    ensures bound { result ≤ length text.now }
{
    text.iter().take_while(|&&b| !is_blank(b)).count()
}

// How many bytes at the front are no newline.
fn line_size(text: &[u8]) -> usize
    ensures value { result ≡ prefix_len (λ b. not (is_newline b)) text.now }
    ensures bound { result ≤ length text.now }
{
    text.iter().take_while(|&&b| b != b'\n').count()
}

// The next word from a place on, where there is one.
pub fn next_word<'a>(text: &'a [u8], from: usize) -> Option<Word<'a>>
    ensures { MatchOption result (NoWord text.now from) (λ w. IsWord text.now from w.start w.bytes.now) }
{
    let rest = text.get(from..)?;
    let start = from + blanks(rest);
    let rest = &text[start..];
    let bytes = &rest[..word_size(rest)];
    if bytes.is_empty() {
        return None;
    }
    Some(Word { bytes, start })
}

// A number in a base: digits up to the end of the word. The base is small, so that a product fits.
fn numeral(word: &[u8], base: u32) -> Result<usize, NoNumber>
    requires { (2 ≤ base) × (base ≤ 16) }
    ensures { result ≡ numeral_of base word.now }
{
    if word.is_empty() {
        return Err(NoNumber::NotANumber);
    }
    let mut value = 0;
    for &b in word {
        let Some(digit) = char::from(b).to_digit(base) else {
            return Err(NoNumber::NotANumber);
        };
        // Any digits after a number that is too large leave it too large.
        value = (value * base + digit).min(LARGEST + 1);
    }
    if value > LARGEST {
        return Err(NoNumber::TooLarge);
    }
    Ok(value as usize)
}

// A number without a sign: hexadecimal after 0x, else decimal.
pub fn unsigned(word: &[u8]) -> Result<usize, NoNumber>
    ensures { (result ≡ unsigned_of word.now) × IfOk result (λ n. n ≤ largest) }
{
    match word {
        [b'0', b'x', digits @ ..] => numeral(digits, 16),
        _ => numeral(word, 10),
    }
}

// What a word says as a number, with a sign or without.
pub fn signed(word: &[u8]) -> Result<Number, NoNumber>
    ensures { (result ≡ signed_of word.now) × IfOk result (λ n. size_of n ≤ largest) }
{
    match word {
        [b'-', size @ ..] => Ok(Number::Minus(unsigned(size)?)),
        _ => Ok(Number::Plain(unsigned(word)?)),
    }
}

// Appends the next part of a line to the `size` bytes of it that are there: a line may lie across
// blocks, and the line is the caller's own room, of which nothing here grows or is kept. What does
// not fit is passed over.
pub fn gather(block: &[u8], from: usize, line: &mut [u8], size: usize) -> Gathered
    ensures { IsGathered block.now from size line.old result.next result.size result.cut line.new }
{
    let rest = &block[from.min(block.len())..];
    let part = line_size(rest);
    let fits = part.min(line.len().saturating_sub(size));
    if fits > 0 {
        wire::put(&rest[..fits], line, size);
    }
    let next = if part < rest.len() {
        Some(from + part + 1)
    } else {
        None
    };
    Gathered {
        next,
        size: size + fits,
        cut: fits < part,
    }
}
