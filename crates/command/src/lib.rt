// What a whole frame says, and the host-side writer of commands (docs/RULES.md C1 to C3, T1 to T7;
// the rows are C128 to C151).
//
//     opcode            modes       legal data
//     128 Start         all four    none
//     129 Baud          P S F       0 to 11
//     130 Control       P           none
//     131, 132          P S F       none
//     133               S F         none
//     136 Demo          P S F       -1 to 9, a signed byte
//     134, 135, 143     P S F       none
//     137 Drive         S F         velocity -500 to 500; radius -2000 to 2000 without 0,
//                                   32767, -32768
//     145 Direct        S F         right, then left, each -500 to 500
//     138 Drivers       S F         0 to 7
//     144 Duties        S F         0 to 128 each, for driver 2, 1, 0
//     139 LEDs          S F         any three bytes
//     147, 151          S F         0 to 7; any
//     140 Song          P S F       song 0 to 15, L 1 to 16, any notes
//     141 Play          S F         0 to 15
//     142 Sensors       P S F       0 to 42
//     149 List          P S F       N 0 to 16, ids 0 to 42
//     148 Stream        P S F       as 149; the ids' sizes, with N, make at most 255
//     150 Pause         P S F       0 off, 1 on
//
// Proved (specs/Commands.antt): what the writer writes, pushed byte by byte, is complete at its
// last byte and not before, and is read back, with 0 in the places of the payload that are not in
// use; every frame of legal data is what the writer writes of its message; a frame has at most 35
// bytes; a refusal writes nothing. And (specs/Fields.antt): flat fields say every message that can
// be written, by the rows of docs/CALLS.md.
#![tactic(auto)]

ghost use Rattle.std.specs.Prelude.{◌≡◌, ◌≤◌, ◌∷◌, ◌++◌};
ghost use Rattle.wire.specs.Sixteen.{be16};
ghost use Rattle.wire.specs.Replies.{Replied};
ghost use Rattle.command.specs.Layout.{head_of, headed, payload_size, payload_in, stored_count, command_of, decode_of};
ghost use Rattle.command.specs.CommandTable.{is_legal, speed, radius, legal_of, allowed_of, write_reply};
ghost use Rattle.command.specs.Fields.{opening_of, message_of};

use wire::Refusal;

// A command, with its numbers as a host thinks of them, in the order in which they are sent. Notes
// and ids stand beside it in a message, as in the flat fields that cross to C: the theorems on the
// writer speak of a payload of which a command uses a part.
#[derive(Clone, Copy, Debug, PartialEq, Eq)]
pub enum Command {
    // 128
    Start,
    // 129: a code for the serial speed.
    Baud(u8),
    // 130
    Control,
    // 131
    Safe,
    // 132
    Full,
    // 133
    Power,
    // 136: a demo's number.
    Demo(i8),
    // 134
    Spot,
    // 135
    Cover,
    // 143
    Dock,
    // 137: velocity and radius.
    Drive(i16, i16),
    // 145: right and left.
    Direct(i16, i16),
    // 138: a bit for each driver output.
    Drivers(u8),
    // 144: of driver 2, 1 and 0.
    Duties(u8, u8, u8),
    // 139: bits, color and intensity.
    Leds(u8, u8, u8),
    // 147
    Outputs(u8),
    // 151
    Infrared(u8),
    // 140: its number, and its length in notes; a note is two bytes of the payload.
    Song(u8, u8),
    // 141
    Play(u8),
    // 142
    Sensors(u8),
    // 149, List: how many ids of the payload it has.
    QueryList(u8),
    // 148: how many ids.
    Stream(u8),
    // 150: 0 off, 1 on.
    Pause(u8),
    // An opcode that is not in the frame table.
    Unknown(u8),
    // 152 to 158.
    NotOffered(u8),
}

// A command with its notes or ids, in the first places of the payload.
#[derive(Clone, Copy, Debug, PartialEq, Eq)]
pub struct Message {
    pub command: Command,
    pub payload: [u8; 32],
}

// A message in flat fields, for callers that have no enum, as in C: the opcode, data bytes as they
// are sent, the two words of a Drive or a Direct, and the payload. Which of them are a command's
// data is in docs/CALLS.md; the others are ignored.
#[repr(C)]
#[derive(Clone, Copy, Debug, PartialEq, Eq)]
pub struct Fields {
    pub opcode: u8,
    pub a: u8,
    pub b: u8,
    pub c: u8,
    pub first: i16,
    pub second: i16,
    pub payload: [u8; 32],
}

// The bytes of a frame before its payload: the opcode and the command's numbers, in the first
// places. No heap: an array, with the number of places that are in use.
#[derive(Clone, Copy, Debug, PartialEq, Eq)]
struct Head {
    bytes: [u8; 5],
    size: usize,
}

impl Head {
    // These bytes, as many as there are.
    fn new<const N: usize>(sent: [u8; N]) -> Head
        requires { N ≤ 5 }
        ensures { result ≡ headed sent.entry }
    {
        let mut bytes = [0u8; 5];
        bytes[..N].copy_from_slice(&sent);
        Head { bytes, size: N }
    }

    // An opcode and two sixteen-bit numbers.
    fn words(op: u8, a: i16, b: i16) -> Head
        ensures { result ≡ headed (op ∷ (be16 a ++ be16 b)) }
    {
        Head::new([
            op,
            wire::high16(a),
            wire::low16(a),
            wire::high16(b),
            wire::low16(b),
        ])
    }
}

impl From<Command> for Head {
    ghost from_gives = { λ command head. head ≡ headed (head_of command) };

    // A reader wants no more of it than the size, which inlined is known in each arm.
    #[inline(always)]
    fn from(command: Command) -> Head {
        match command {
            Command::Start => Head::new([128]),
            Command::Baud(code) => Head::new([129, code]),
            Command::Control => Head::new([130]),
            Command::Safe => Head::new([131]),
            Command::Full => Head::new([132]),
            Command::Power => Head::new([133]),
            Command::Demo(demo) => Head::new([136, wire::low16(wire::widen(demo))]),
            Command::Spot => Head::new([134]),
            Command::Cover => Head::new([135]),
            Command::Dock => Head::new([143]),
            Command::Drive(velocity, radius) => Head::words(137, velocity, radius),
            Command::Direct(right, left) => Head::words(145, right, left),
            Command::Drivers(bits) => Head::new([138, bits]),
            Command::Duties(driver2, driver1, driver0) => {
                Head::new([144, driver2, driver1, driver0])
            }
            Command::Leds(bits, color, intensity) => Head::new([139, bits, color, intensity]),
            Command::Outputs(bits) => Head::new([147, bits]),
            Command::Infrared(code) => Head::new([151, code]),
            Command::Song(song, notes) => Head::new([140, song, notes]),
            Command::Play(song) => Head::new([141, song]),
            Command::Sensors(id) => Head::new([142, id]),
            Command::QueryList(ids) => Head::new([149, ids]),
            Command::Stream(ids) => Head::new([148, ids]),
            Command::Pause(on) => Head::new([150, on]),
            Command::Unknown(op) | Command::NotOffered(op) => Head::new([op]),
        }
    }
}

// How many of a count's notes or ids are there: past a legal count none is stored.
fn stored_count(count: u8) -> usize
    ensures { result ≡ stored_count count }
{
    if count > frame::LEGAL_COUNT {
        return 0;
    }
    usize::from(count)
}

impl Command {
    // How many bytes of the payload a command uses.
    fn payload_size(self) -> usize
        ensures { result ≡ payload_size self }
    {
        match self {
            Command::Song(_, notes) => 2 * stored_count(notes),
            Command::QueryList(ids) | Command::Stream(ids) => stored_count(ids),
            _ => 0,
        }
    }
}

impl Message {
    // The places of the payload in use.
    fn used(&self) -> &[u8]
        ensures { result.now ≡ payload_in self.now }
    {
        &self.payload[..self.command.payload_size()]
    }
}

// The command that the first bytes of a frame say.
impl From<[u8; 5]> for Command {
    ghost from_gives = { λ bytes command. command ≡ command_of bytes };

    #[tactic(auto, unfolding(crate::specs::Layout::command_of))]
    fn from(bytes: [u8; 5]) -> Command {
        let [op, a, b, c, d] = bytes;
        match op {
            128 => Command::Start,
            129 => Command::Baud(a),
            130 => Command::Control,
            131 => Command::Safe,
            132 => Command::Full,
            133 => Command::Power,
            136 => Command::Demo(wire::read8(a)),
            134 => Command::Spot,
            135 => Command::Cover,
            143 => Command::Dock,
            137 => Command::Drive(wire::read16(a, b), wire::read16(c, d)),
            145 => Command::Direct(wire::read16(a, b), wire::read16(c, d)),
            138 => Command::Drivers(a),
            144 => Command::Duties(a, b, c),
            139 => Command::Leds(a, b, c),
            147 => Command::Outputs(a),
            151 => Command::Infrared(a),
            140 => Command::Song(a, b),
            141 => Command::Play(a),
            142 => Command::Sensors(a),
            149 => Command::QueryList(a),
            148 => Command::Stream(a),
            150 => Command::Pause(a),
            152..=158 => Command::NotOffered(op),
            _ => Command::Unknown(op),
        }
    }
}

// The message of a complete frame. What it gives past a legal count is free (rule Q6): it is a
// payload of which no place is in use, all 0. Neither this nor `message_of` is a From: the pages
// and the crates above name both, and a second name would say no more.
#[tactic(auto, unfolding(crate::specs::Layout::command_of, crate::specs::Layout::decode_of))]
pub fn decode(bytes: [u8; 35]) -> Message
    ensures { result ≡ decode_of bytes }
{
    let command = Command::from([bytes[0], bytes[1], bytes[2], bytes[3], bytes[4]]);
    let start = Head::from(command).size;
    let size = command.payload_size();
    let mut payload = [0u8; 32];
    wire::put(&bytes[start..start + size], &mut payload, 0);
    Message { command, payload }
}

// The first bytes of the frame that fields say.
fn opening_of(fields: Fields) -> Head
    ensures { result ≡ headed (opening_of fields) }
{
    match fields.opcode {
        137 | 145 => Head::words(fields.opcode, fields.first, fields.second),
        _ => Head::new([fields.opcode, fields.a, fields.b, fields.c]),
    }
}

// The message of flat fields.
#[tactic(auto, unfolding(crate::specs::Layout::command_of, crate::specs::Fields::message_of))]
pub fn message_of(fields: Fields) -> Message
    ensures { result ≡ message_of fields }
{
    let command = Command::from(opening_of(fields).bytes);
    let payload = fields.payload;
    Message { command, payload }
}

// The last legal code for the serial speed, digital outputs, song number and duty. They are
// numbers, as in the state record, which crosses to C; its check uses these names.
pub const LAST_BAUD: u8 = 11;

pub const LAST_OUTPUTS: u8 = 7;

pub const LAST_SONG: u8 = 15;

pub const FULL_DUTY: u8 = 128;

// Whether a velocity is legal.
#[tactic(auto, unfolding(crate::specs::CommandTable::is_in, crate::specs::CommandTable::is_legal))]
pub fn is_speed(v: i16) -> bool
    ensures { result ≡ is_legal speed v }
{
    matches!(v, -500..=500)
}

// Whether a radius is. The ranges are asked one by one, since as one pattern they are compiled to
// more tests.
#[tactic(auto, unfolding(crate::specs::CommandTable::is_in, crate::specs::CommandTable::is_legal))]
pub fn is_radius(v: i16) -> bool
    ensures { result ≡ is_legal radius v }
{
    matches!(v, -2000..=-1) || matches!(v, 1..=2000) || matches!(v, 32767 | -32768)
}

// Whether the data are legal. What it gives for a variant that is refused as such is free (rule
// Q6): none has legal data.
#[tactic(auto, unfolding(crate::specs::CommandTable::is_in, crate::specs::CommandTable::is_legal, crate::specs::CommandTable::row_of, crate::specs::CommandTable::legal_of))]
pub fn legal(message: Message) -> bool
    ensures { result ≡ legal_of message }
{
    let Message { command, payload } = message;
    match command {
        Command::Baud(code) => code <= LAST_BAUD,
        Command::Demo(demo) => matches!(demo, -1..=9),
        Command::Drive(velocity, radius) => is_speed(velocity) && is_radius(radius),
        Command::Direct(right, left) => is_speed(right) && is_speed(left),
        Command::Drivers(bits) => bits <= 7,
        Command::Duties(driver2, driver1, driver0) => {
            driver2 <= FULL_DUTY && driver1 <= FULL_DUTY && driver0 <= FULL_DUTY
        }
        Command::Outputs(bits) => bits <= LAST_OUTPUTS,
        Command::Song(song, notes) => {
            song <= LAST_SONG && 1 <= notes && notes <= frame::LEGAL_COUNT
        }
        Command::Play(song) => song <= LAST_SONG,
        Command::Sensors(id) => id <= packet::LAST_ID,
        Command::QueryList(ids) => ids <= frame::LEGAL_COUNT
            && packet::listable(&payload[..command.payload_size()]),
        Command::Stream(ids) => ids <= frame::LEGAL_COUNT
            && packet::streamable(&payload[..command.payload_size()]),
        Command::Pause(on) => on <= 1,
        Command::Unknown(_) | Command::NotOffered(_) => false,
        // No data, or any bytes.
        _ => true,
    }
}

// The modes, as packet 35 sends them. They are numbers, and no enum: so the state record, which
// crosses to C, keeps a mode, and `allowed` tells of any byte.
pub const OFF: u8 = 0;

pub const PASSIVE: u8 = 1;

pub const SAFE: u8 = 2;

pub const FULL: u8 = 3;

// Whether a command is for this mode. What it gives for a variant that is refused as such is free
// (rule Q6): it is for none.
#[tactic(auto, unfolding(crate::specs::CommandTable::row_of, crate::specs::CommandTable::allowed_of))]
pub fn allowed(command: Command, mode: u8) -> bool
    ensures { result ≡ allowed_of command mode }
{
    match command {
        Command::Start => mode <= FULL,
        Command::Control => mode == PASSIVE,
        Command::Power
        | Command::Drive(_, _)
        | Command::Direct(_, _)
        | Command::Drivers(_)
        | Command::Duties(_, _, _)
        | Command::Leds(_, _, _)
        | Command::Outputs(_)
        | Command::Infrared(_)
        | Command::Play(_) => matches!(mode, SAFE..=FULL),
        Command::Unknown(_) | Command::NotOffered(_) => false,
        _ => matches!(mode, PASSIVE..=FULL),
    }
}

// The host-side writer: 4 for anything that isn't an offered command with legal data, then 7 for a
// frame longer than the buffer, then the frame. It asks no mode.
pub fn write(message: Message, buffer: &mut [u8]) -> Result<usize, Refusal>
    ensures { Replied (write_reply message) buffer.old buffer.new result }
{
    if !legal(message) {
        return Err(Refusal::NotLegal);
    }
    let head = Head::from(message.command);
    let used = message.used();
    if head.size + used.len() > buffer.len() {
        return Err(Refusal::NoRoom);
    }
    let next = wire::put(&head.bytes[..head.size], buffer, 0);
    Ok(wire::put(used, buffer, next))
}
