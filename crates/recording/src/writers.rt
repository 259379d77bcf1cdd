// One record into a lent buffer (docs/RULES.md E17): 4 for flags above 7, 7 where it has no room;
// else the record stands at the buffer's start.
ghost use Rattle.std.specs.Prelude.{true, ◌∷◌};
ghost use Rattle.wire.specs.Replies.{reply_of, Replied};
ghost use Rattle.recording.specs.Recordings.{serial, safety, ticked, song_ended, sensed, printed, legal_entry};

use crate::{IMAGE, MOST_FLAGS, REPORT, SERIAL, SONG_END, TICK};
use wire::Refusal;

fn put_record(kind: u8, body: &[u8], buffer: &mut [u8]) -> Result<usize, Refusal>
    ensures { Replied (reply_of true (kind ∷ body.now)) buffer.old buffer.new result }
{
    if buffer.len() <= body.len() {
        return Err(Refusal::NoRoom);
    }
    buffer[0] = kind;
    Ok(wire::put(body, buffer, 1))
}

// One for each kind, each with its own rule in its contract.

// A byte that the board was given.
pub fn record_byte(b: u8, buffer: &mut [u8]) -> Result<usize, Refusal>
    ensures { Replied (reply_of true (printed (serial b))) buffer.old buffer.new result }
{
    put_record(SERIAL, &[b], buffer)
}

// A safety report: wheel drop in bit 0 of its flags, cliff in bit 1, powered charger in bit 2.
pub fn record_report(flags: u8, buffer: &mut [u8]) -> Result<usize, Refusal>
    ensures { Replied (reply_of (legal_entry (safety flags)) (printed (safety flags))) buffer.old buffer.new result }
{
    if flags > MOST_FLAGS {
        return Err(Refusal::NotLegal);
    }
    put_record(REPORT, &[flags], buffer)
}

pub fn record_tick(buffer: &mut [u8]) -> Result<usize, Refusal>
    ensures { Replied (reply_of true (printed ticked)) buffer.old buffer.new result }
{
    put_record(TICK, &[], buffer)
}

pub fn record_song_end(buffer: &mut [u8]) -> Result<usize, Refusal>
    ensures { Replied (reply_of true (printed song_ended)) buffer.old buffer.new result }
{
    put_record(SONG_END, &[], buffer)
}

// The image that the calls after it are handed.
pub fn record_image(image: &[u8; 40], buffer: &mut [u8]) -> Result<usize, Refusal>
    ensures { Replied (reply_of true (printed (sensed image.now))) buffer.old buffer.new result }
{
    put_record(IMAGE, image, buffer)
}
