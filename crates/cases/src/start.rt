// The record that a cell says: a name, and then from left to right bytes, fed one by one, and parts
// set by hand.
use crate::give::{Call, ROOM, give};
use crate::session::{Fault, Session};
use state::State;
use terminal::{Out, Text, Told};

// A number is a byte for the board, and any other word a part of the record, with its numbers.
fn step(out: &mut Out, state: &mut State, text: &mut Text<'_>, word: &[u8]) -> Result<(), Told> {
    let Ok(n) = line::unsigned(word) else {
        return words::set_part(out, state, text);
    };
    let _ = text.word();
    let Ok(b) = u8::try_from(n) else {
        return Err(Fault::NoByte.tell(out, text.number, text.at));
    };
    let given = give(*state, Call::Byte(b), ROOM);
    *state = given.state;
    Ok(())
}

// The record of a cell. The first one of the line goes by the name `before`.
pub fn start_from(
    out: &mut Out,
    session: &Session,
    before: State,
    text: &mut Text<'_>,
) -> Result<State, Told> {
    let place = text.place();
    let Some(mut state) = session.record(text.name(), before) else {
        return Err(Fault::NoRecord.tell(out, text.number, place));
    };
    // A proved loop has to end: a cell has no more words than bytes.
    for _ in 0..=text.bytes.len() {
        let Some(word) = text.peek() else { break };
        step(out, &mut state, text, word.bytes)?;
    }
    Ok(state)
}
