// Performs a file of calls from standard input on one board, and writes one line: how often each
// number came back, the bytes answered, and a digest of all that was given. With the argument
// `bare` the digest leaves the records out, with `trace` there is a line for each call instead.
// docs/CALLS.md has the form of all of it.
#![tactic(auto)]

mod calls;
mod input;
mod layout;
mod record;
mod report;
mod tally;

use calls::Setup;
use input::Window;
use record::{Fault, Record};
use report::{Report, Style};
use terminal::{Out, Write, say};

// The file, up to its end or a fault. A proved loop has to end, and nothing says that the input
// does: the turns count up to a number that no file reaches. The record stands apart from what is
// lent, so that the compiler lends it to a call and makes no copy.
fn perform(out: &mut Out, window: &mut Window, report: &mut Report) -> Result<(), Fault> {
    let mut block = io::large_buffer();
    let mut setup = Setup::new();
    let mut state = state::power_on();
    for _ in 0..u64::MAX {
        window.fill(out, &mut block);
        let Some(record) = window.next(&block)? else {
            break;
        };
        match record {
            Record::Image(image) => setup.image = *image,
            Record::Room(room) => setup.room = room,
            Record::State(bytes) => state = layout::state_of(bytes),
            Record::Call(call) => {
                let given = setup.perform(&mut state, call);
                report.tell(out, given, setup.answer(given), &state);
                setup.clear(given);
            }
        }
    }
    Ok(())
}

fn main(rt: HostRuntime) {
    let mut out = Out::new();
    let mut window = Window::new(rt.stdin());
    let mut report = Report::new(Style::asked(&rt));
    let ended = perform(&mut out, &mut window, &mut report);
    report.finish(&mut out);
    if let Err(fault) = ended {
        say!(out, "offset {}: {fault}\n", window.offset());
    }
    out.flush();
}
