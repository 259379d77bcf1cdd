// What is told of the calls, in the style that the program's argument names.
use crate::calls::Given;
use crate::layout::put_state;
use crate::tally::{Tally, Trace};
use state::State;
use std::rt::Env;
use terminal::Out;

// A summary with the records in its digest, one without, or a line for each call.
#[derive(Clone, Copy, Debug, PartialEq, Eq)]
pub enum Style {
    Whole,
    Bare,
    Trace,
}

impl Style {
    fn named(word: &[u8]) -> Style {
        match word {
            b"trace" => Style::Trace,
            b"bare" => Style::Bare,
            _ => Style::Whole,
        }
    }

    // Another argument, or none, asks for the whole summary.
    pub fn asked(rt: &HostRuntime) -> Style {
        let mut word = [0u8; 16];
        match rt.arg(1, &mut word) {
            Ok(size) => Style::named(&word[..size]),
            Err(_) => Style::Whole,
        }
    }
}

#[derive(Clone, Copy)]
pub struct Report {
    style: Style,
    tally: Tally,
}

impl Report {
    pub fn new(style: Style) -> Report {
        Report {
            style,
            tally: Tally::new(),
        }
    }

    // A call is counted and digested, or told, with the record after it.
    pub fn tell(&mut self, out: &mut Out, given: Given, answer: &[u8], state: &State) {
        match self.style {
            Style::Whole => {
                self.tally.put_call(given, answer);
                put_state(&mut self.tally.digest, state);
            }
            Style::Bare => self.tally.put_call(given, answer),
            Style::Trace => {
                let mut trace = Trace { out };
                trace.put_call(given, answer);
                put_state(&mut trace, state);
                trace.out.say(b"\n");
            }
        }
    }

    // A trace has no summary.
    pub fn finish(&self, out: &mut Out) {
        if self.style != Style::Trace {
            self.tally.say(out);
        }
    }
}
