// What the programs here share: text to standard output, lines from standard input, and the numbers
// of a line with what is said of bad ones. What is read and written no contract can say; the work
// is in `line` and in the libraries that the programs call.
#![tactic(auto)]

mod input;
mod output;
mod text;

pub use input::{Input, Over, Unread, read_into};
pub use output::{Listed, Out, Shown, Where};
// For `say!`.
pub use std::fmt::Write;
pub use text::{Bytes, MOST, Text, Told};
