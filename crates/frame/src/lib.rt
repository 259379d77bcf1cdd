// Cuts a serial byte stream into frames: an opcode and its data bytes (docs/RULES.md F1 to F14, of
// which the table is F3 to F10).
//
//     128, 130 to 135, 143, 153, 154                      0
//     129, 136, 138, 141, 142, 147, 150, 151, 155, 158    1
//     156, 157                                            2
//     139, 144                                            3
//     137, 145                                            4
//     140                                                 2 + 2L, L the second data byte
//     148, 149, 152                                       1 + N, N the first data byte
//     all others                                          0, unknown
//
// Proved (specs/Cut.antt): whatever the data bytes are, none is read as an opcode, and the byte
// after them is; so of 511 bytes 128 the last is read as one, and 511 is the least such number. The
// cut knows nothing of modes, nor of whether a command will be refused.
#![tactic(auto)]

ghost use Rattle.std.specs.Prelude.{◌≡◌, ◌≤◌, eqb, length};
ghost use Rattle.frame.specs.FrameTable.{data_length, header_size};
ghost use Rattle.frame.specs.Push.{body_size_as, stores_body_as, append_of, measure_of, pushed_as, empty_partial};
ghost use Rattle.frame.specs.Absorb.{keeps, body_of, absorb_of, taken_as};
ghost use Rattle.frame.specs.Reach.{remaining_right, reachable_of};

// The most notes of a song, and the most ids of a list, that are legal.
pub const LEGAL_COUNT: u8 = 16;

// How many data bytes follow an opcode.
#[derive(Clone, Copy, Debug, PartialEq, Eq)]
pub enum Length {
    // A number that the opcode alone gives.
    Fixed(usize),
    // A count byte N, and N bytes.
    Counted,
    // A song number, a count byte L, and 2L bytes.
    Song,
    // An opcode that is not in the frame table: no data bytes.
    Unknown,
}

// A partial frame, which is the held frame of docs/RULES.md H1 to H10: the bytes stored, their
// number, and how many bytes remain, which the rules call owed. It is empty where both numbers are
// 0; remaining is 0 while the length is not known. An array with its count crosses to C, and
// nothing here allocates.
#[repr(C)]
#[derive(Clone, Copy, Debug, PartialEq, Eq)]
pub struct Partial {
    pub bytes: [u8; 35],
    pub count: usize,
    pub remaining: usize,
}

// The frame that bytes leave: one that waits for more, or a whole one.
#[derive(Clone, Copy, Debug, PartialEq, Eq)]
pub enum Frame {
    Waits(Partial),
    Whole(Partial),
}

// What the bytes of a slice leave, of which count are taken. A frame is whole where the last of
// these was its last.
#[derive(Clone, Copy, Debug, PartialEq, Eq)]
pub struct Taken {
    pub frame: Frame,
    pub count: usize,
}

// The one place where framing is decided. Each arm of the match is held against what the frame
// table says of its opcodes.
#[tactic(auto, unfolding(crate::specs::FrameTable::data_length))]
pub fn data_length(op: u8) -> Length
    ensures { result ≡ data_length op }
{
    match op {
        128 | 130..=135 | 143 | 153 | 154 => Length::Fixed(0),
        129 | 136 | 138 | 141 | 142 | 147 | 150 | 151 | 155 | 158 => Length::Fixed(1),
        156 | 157 => Length::Fixed(2),
        139 | 144 => Length::Fixed(3),
        137 | 145 => Length::Fixed(4),
        140 => Length::Song,
        148 | 149 | 152 => Length::Counted,
        _ => Length::Unknown,
    }
}

impl Length {
    // The bytes up to the one that gives the length, the opcode among them.
    fn header_size(self) -> usize
        ensures { result ≡ header_size self }
    {
        match self {
            Length::Fixed(_) | Length::Unknown => 1,
            Length::Counted => 2,
            Length::Song => 3,
        }
    }

    // The data bytes after the header, once that is stored.
    #[tactic(auto, unfolding(crate::specs::Push::body_size_as))]
    fn body_size(self, bytes: &[u8; 35]) -> usize
        ensures { result ≡ body_size_as self bytes.now }
    {
        match self {
            Length::Fixed(n) => n,
            Length::Counted => usize::from(bytes[1]),
            Length::Song => 2 * usize::from(bytes[2]),
            Length::Unknown => 0,
        }
    }

    // Whether those are stored: not past a legal count, and not in a 152.
    fn stores_body(self, bytes: &[u8; 35]) -> bool
        ensures { result ≡ stores_body_as self bytes.now }
    {
        match self {
            Length::Counted => bytes[0] != 152 && bytes[1] <= LEGAL_COUNT,
            Length::Song => bytes[2] <= LEGAL_COUNT,
            Length::Fixed(_) | Length::Unknown => true,
        }
    }
}

impl Frame {
    // One whose length is known is whole where nothing remains.
    fn of(p: Partial) -> Frame
        ensures { pushed_as result ≡ record { partial = p; complete = eqb p.remaining 0 } }
    {
        if p.remaining == 0 {
            Frame::Whole(p)
        } else {
            Frame::Waits(p)
        }
    }
}

// A byte while the length is not known: it is stored, and once the header is complete its body
// remains, or the frame ends. A full frame, which no list of bytes leaves, stores nothing more.
fn absorb_one(p: Partial, b: u8) -> Frame
    ensures { pushed_as result ≡ measure_of (append_of p b) }
{
    let mut next = p;
    if next.count < 35 {
        next.bytes[next.count] = b;
        next.count += 1;
    }
    let length = data_length(next.bytes[0]);
    if next.count < length.header_size() {
        return Frame::Waits(next);
    }
    next.remaining = length.body_size(&next.bytes);
    Frame::of(next)
}

// Whether n bytes of the body are stored: where the body is, and there is room for all of them.
fn keeps(p: Partial, n: usize) -> bool
    ensures { result ≡ keeps p n }
{
    data_length(p.bytes[0]).stores_body(&p.bytes) && n <= 35 && p.count <= 35 - n
}

// Bytes of the body, no more than remain.
fn absorb_body(p: Partial, bytes: &[u8]) -> Frame
    requires { length bytes.now ≤ p.remaining }
    ensures { pushed_as result ≡ body_of p bytes.now }
{
    let mut next = p;
    if keeps(p, bytes.len()) {
        next.count = wire::put(bytes, &mut next.bytes, p.count);
    }
    next.remaining -= bytes.len();
    Frame::of(next)
}

// As many bytes at once as surely belong to one frame: one while its length is not known, and then
// those that remain; of an empty slice none. On a reachable frame they leave what they leave one by
// one (specs/Absorb.antt, TakenAtOnce). What is given on another is free (rule Q6): as many are
// taken there, and those of a body are stored only where there is room for all of them.
#[tactic(auto, using(crate::proofs::AbsorbLaws::cases))]
pub fn absorb(p: Partial, bytes: &[u8]) -> Taken
    ensures { taken_as result ≡ absorb_of p bytes.now }
{
    let Some(&b) = bytes.first() else {
        return Taken {
            frame: Frame::Waits(p),
            count: 0,
        };
    };
    if p.remaining == 0 {
        return Taken {
            frame: absorb_one(p, b),
            count: 1,
        };
    }
    let count = p.remaining.min(bytes.len());
    Taken {
        frame: absorb_body(p, &bytes[..count]),
        count,
    }
}

// Nothing is read yet.
pub fn empty() -> Partial
    ensures { result ≡ empty_partial }
{
    Partial {
        bytes: [0u8; 35],
        count: 0,
        remaining: 0,
    }
}

// What remains is what did not come of the body, and nothing until the length is known.
fn remaining_right(p: Partial) -> bool
    ensures { result ≡ remaining_right p }
{
    let length = data_length(p.bytes[0]);
    let header = length.header_size();
    if p.count < header {
        return p.remaining == 0;
    }
    let body = length.body_size(&p.bytes);
    if p.remaining == 0 || body < p.remaining {
        return false;
    }
    if length.stores_body(&p.bytes) {
        p.count - header == body - p.remaining
    } else {
        p.count == header
    }
}

// Whether the frame table can leave this frame between two bytes.
pub fn reachable(p: Partial) -> bool
    ensures { result ≡ reachable_of p }
{
    wire::clear_from(&p.bytes, p.count) && remaining_right(p)
}
