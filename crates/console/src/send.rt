// Commands by name: what a host would write, as the host-side writer writes it.
use crate::calls::give_bytes;
use crate::perform::Line;
use crate::session::Session;
use terminal::{Out, Told, Write, say};
use words::meaning;

// What the writer would take, for the commands of which it refuses something.
fn legal_of(op: u8) -> &'static str {
    match op {
        129 => "0 to 11",
        136 => "-1 to 9",
        137 => "velocity -500 to 500; radius -2000 to 2000 but not 0, or 32767, or -32768",
        138 | 147 => "0 to 7",
        140 => "song 0 to 15, 1 to 16 notes of two numbers",
        141 => "0 to 15",
        142 => "0 to 42",
        144 => "0 to 128 each, for drivers 2, 1 and 0",
        145 => "right and left, each -500 to 500",
        148 => "up to 16 ids, each 0 to 42, their sizes and number at most 255 in all",
        149 => "up to 16 ids, each 0 to 42",
        _ => "0 or 1",
    }
}

// The command of an opcode, with the values that follow its name. The frame that is written goes to
// the board; what the writer refuses is said.
pub fn command(
    out: &mut Out,
    session: &mut Session,
    op: u8,
    line: &mut Line<'_>,
) -> Result<(), Told> {
    let message = words::message_from(out, op, &mut line.rest)?;
    let mut frame = [0u8; 35];
    match command::write(message, &mut frame) {
        Ok(size) => {
            let written = &frame[..size.min(frame.len())];
            if session.verbose {
                out.say(b"writes ");
                out.say_joined(written, b" ");
                out.say(b"\n");
            }
            give_bytes(out, session, line.typed, written);
            Ok(())
        }
        Err(refusal) => {
            line.rest.say_where(out, line.first.start);
            out.say(b"the writer refuses it: ");
            out.say(meaning(Some(refusal)).as_bytes());
            say!(out, ";\n    legal: {}\n", legal_of(op));
            Err(Told)
        }
    }
}
