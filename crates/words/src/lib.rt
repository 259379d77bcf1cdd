// The words that the programs share: for a mode, a number given back, a command, both as it is
// shown and as a person types it, and the parts of a record, set by their names.
#![tactic(auto)]

mod parts;
mod shown;
mod typed;

pub use parts::{is_part, set_part};
pub use shown::{Mode, Value, meaning, number};
pub use typed::{message_from, opcode_named};
