// How modes, numbers and commands are shown.
ghost use Rattle.std.specs.Prelude.{◌≡◌, ◌+◌, [], ◌∷◌, take, codes, MatchOption};
ghost use Rattle.wire.specs.Replies.{number_of};

use command::{Command, Message};
use std::fmt;
use terminal::{Listed, Out, Write, say};
use wire::Refusal;

// A mode by its name; one that has none, by its number.
#[derive(Clone, Copy)]
pub struct Mode(pub u8);

impl fmt::Display for Mode {
    fn fmt<W: fmt::Write>(&self, f: &mut fmt::Formatter<W>) -> fmt::Result {
        match self.0 {
            command::OFF => f.write_str("Off"),
            command::PASSIVE => f.write_str("Passive"),
            command::SAFE => f.write_str("Safe"),
            command::FULL => f.write_str("Full"),
            n => write!(f, "mode {n}"),
        }
    }
}

// The number that a call gave back: 0 where nothing was refused.
pub fn number(refusal: Option<Refusal>) -> u8
    ensures { MatchOption refusal (result ≡ 0) (λ r. result ≡ number_of r) }
{
    match refusal {
        Some(refusal) => u8::from(refusal),
        None => 0,
    }
}

// The words for what a call gave back. Those for a refusal begin with its number, a digit.
pub fn meaning(refusal: Option<Refusal>) -> &'static str
    ensures { MatchOption refusal (result.now ≡ codes "done")
        (λ r. take 1 result.now ≡ (48 + number_of r) ∷ []) }
{
    match refusal {
        None => "done",
        Some(Refusal::Unknown) => "1 unknown opcode",
        Some(Refusal::NotOffered) => "2 not offered",
        Some(Refusal::WrongMode) => "3 wrong mode",
        Some(Refusal::NotLegal) => "4 data not legal",
        Some(Refusal::NoSong) => "5 no song",
        Some(Refusal::Busy) => "6 busy playing",
        Some(Refusal::NoRoom) => "7 no room for the answer",
        Some(Refusal::BadRecord) => "8 bad record",
        Some(Refusal::Waiting) => "9 waiting for more of the frame",
    }
}

// The notes or ids of a command; none past a legal count.
fn listed(message: &Message) -> &[u8] {
    let payload: &[u8] = &message.payload;
    match message.command {
        Command::Song(_, notes) if notes <= frame::LEGAL_COUNT => {
            &payload[..2 * usize::from(notes)]
        }
        Command::QueryList(ids) | Command::Stream(ids) if ids <= frame::LEGAL_COUNT => {
            &payload[..usize::from(ids)]
        }
        _ => b"",
    }
}

// A command as a value, and in brackets its notes or ids where it has some: Stream(2) [29, 13].
#[derive(Clone, Copy)]
pub struct Value(pub Message);

impl fmt::Display for Value {
    fn fmt<W: fmt::Write>(&self, f: &mut fmt::Formatter<W>) -> fmt::Result {
        write!(f, "{:?}", self.0.command)?;
        match listed(&self.0) {
            [] => Ok(()),
            bytes => write!(
                f,
                " [{}]",
                Listed {
                    bytes,
                    between: ", "
                }
            ),
        }
    }
}

impl Value {
    // The same to standard output, where each note or id is a piece.
    pub fn say(&self, out: &mut Out) {
        say!(out, "{:?}", self.0.command);
        let listed = listed(&self.0);
        if !listed.is_empty() {
            out.say(b" [");
            out.say_joined(listed, b", ");
            out.say(b"]");
        }
    }
}

#[cfg(test)]
mod tests {
    use super::*;
    use std::test::Fail;

    // A payload that begins with some notes or ids.
    fn payload(listed: &[u8]) -> [u8; 32] {
        let mut payload = [0u8; 32];
        for (to, &b) in payload.iter_mut().zip(listed) {
            *to = b;
        }
        payload
    }

    // The first five as the page for hosts has them. Behind a count that is not legal nothing is
    // listed.
    #[test]
    fn values_are_shown(rt: HostRuntime) -> Result<(), Fail> {
        let values = [
            (Command::Start, payload(b""), "Start"),
            (Command::Drive(-200, 500), payload(b""), "Drive(-200, 500)"),
            (
                Command::Song(0, 2),
                payload(&[60, 32, 64, 32]),
                "Song(0, 2) [60, 32, 64, 32]",
            ),
            (Command::Stream(2), payload(&[29, 13]), "Stream(2) [29, 13]"),
            (
                Command::QueryList(3),
                payload(&[35, 39, 40]),
                "QueryList(3) [35, 39, 40]",
            ),
            (Command::QueryList(0), payload(&[35]), "QueryList(0)"),
            (Command::QueryList(17), payload(&[35]), "QueryList(17)"),
        ];
        for (command, payload, text) in values {
            let shown = format!(in rt.alloc(); "{}", Value(Message { command, payload }))?;
            assert_eq!(rt; shown.as_str(), text);
        }
        Ok(())
    }
}
