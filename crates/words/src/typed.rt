// A command as a person types it, by its name and its values: drive 200 500, song 0 60 32 64 32,
// stream 29 13. Its values need not be legal: the writer of commands is there to refuse them.
ghost use Rattle.std.specs.Prelude.{◌≡◌, true, IfSome};
ghost use Rattle.words.specs.Opcodes.{offered};

use command::Message;
use frame::Length;
use terminal::{Out, Text, Told, Write, say};

// The opcode of a command's name: one that is offered.
pub fn opcode_named(word: &[u8]) -> Option<u8>
    ensures { IfSome result (λ op. offered op ≡ true) }
{
    Some(match word {
        b"start" => 128,
        b"baud" => 129,
        b"control" => 130,
        b"safe" => 131,
        b"full" => 132,
        b"power" => 133,
        b"spot" => 134,
        b"cover" => 135,
        b"demo" => 136,
        b"drive" => 137,
        b"drivers" => 138,
        b"leds" => 139,
        b"song" => 140,
        b"play" => 141,
        b"sensors" => 142,
        b"dock" => 143,
        b"duties" => 144,
        b"direct" => 145,
        b"outputs" => 147,
        b"stream" => 148,
        b"list" => 149,
        b"pause" => 150,
        b"infrared" => 151,
        _ => return None,
    })
}

// The message of a frame: its first bytes, and those behind them, of which no more are taken than a
// frame has room for. What is not in use is 0.
fn framed(head: &[u8], behind: &[u8]) -> Message {
    let mut bytes = [0u8; 35];
    for (to, &from) in bytes.iter_mut().zip(head.iter().chain(behind)) {
        *to = from;
    }
    command::decode(bytes)
}

// A signed byte.
fn signed_byte(out: &mut Out, op: u8, text: &mut Text<'_>) -> Result<Message, Told> {
    let [_, low] = text.signed(out, 127)?.to_be_bytes();
    text.ends(out)?;
    Ok(framed(&[op, low], b""))
}

// Two numbers of sixteen bits, high byte first.
fn pair(out: &mut Out, op: u8, text: &mut Text<'_>) -> Result<Message, Told> {
    let first = text.signed(out, 32767)?.to_be_bytes();
    let second = text.signed(out, 32767)?.to_be_bytes();
    text.ends(out)?;
    Ok(framed(&[op, first[0], first[1], second[0], second[1]], b""))
}

// Numbers of one byte each, of which there are as many as the opcode says.
fn plain(out: &mut Out, op: u8, wanted: usize, text: &mut Text<'_>) -> Result<Message, Told> {
    let place = text.at;
    let values = text.numbers(out)?;
    if values.len() != wanted {
        text.say_wanted(out, place, wanted, values.len());
        return Err(Told);
    }
    Ok(framed(&[op], values.as_slice()))
}

fn clipped(n: usize) -> u8 {
    u8::try_from(n).unwrap_or(u8::MAX)
}

// Ids: their count comes first. Past its legal count a frame is its bytes up to the count.
fn counted(out: &mut Out, op: u8, text: &mut Text<'_>) -> Result<Message, Told> {
    let ids = text.numbers(out)?;
    Ok(framed(&[op, clipped(ids.len())], ids.as_slice()))
}

// A song's number and its notes, two numbers each.
fn song(out: &mut Out, op: u8, text: &mut Text<'_>) -> Result<Message, Told> {
    let place = text.at;
    let values = text.numbers(out)?;
    match values.as_slice() {
        [number, notes @ ..] if notes.len() % 2 == 0 => {
            Ok(framed(&[op, *number, clipped(notes.len() / 2)], notes))
        }
        _ => {
            text.say_where(out, place);
            say!(out, "a song is its number and two numbers for each note\n");
            Err(Told)
        }
    }
}

// The command of an opcode and the values up to the text's end, as it would be read.
pub fn message_from(out: &mut Out, op: u8, text: &mut Text<'_>) -> Result<Message, Told> {
    match (op, frame::data_length(op)) {
        (136, _) => signed_byte(out, op, text),
        (137 | 145, _) => pair(out, op, text),
        (_, Length::Fixed(0) | Length::Unknown) => {
            text.ends(out)?;
            Ok(framed(&[op], b""))
        }
        (_, Length::Fixed(n)) => plain(out, op, n, text),
        (_, Length::Song) => song(out, op, text),
        (_, Length::Counted) => counted(out, op, text),
    }
}
