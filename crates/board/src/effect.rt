// What a command does to the record.
ghost use Rattle.std.specs.Prelude.{◌≡◌, [], ◌∷◌, ◌<◌};
ghost use Rattle.state.specs.State.{with_duties};
ghost use Rattle.board.specs.Judge.{duty_of, effect_in};

use command::{Command, Message};
use state::State;

// A driver's duty by its bit, of which place is the worth: 1, 2 or 4. One that 138 turns on has all
// of it.
fn duty_of(bits: u8, place: u8) -> u8
    requires { 0 < place }
    ensures { result ≡ duty_of bits place }
{
    if (bits / place) % 2 == 1 {
        command::FULL_DUTY
    } else {
        0
    }
}

fn with_drivers(state: State, bits: u8) -> State
    ensures { result ≡ with_duties (duty_of bits 1 ∷ duty_of bits 2 ∷ duty_of bits 4 ∷ []) state }
{
    let duties = [duty_of(bits, 1), duty_of(bits, 2), duty_of(bits, 4)];
    state::with_duties(state, duties)
}

// What a command does (docs/RULES.md C128 to C151), in the order of the command table.
pub fn effect(state: State, message: Message) -> State
    ensures { result ≡ (effect_in message).sets state }
{
    let payload = message.payload;
    match message.command {
        Command::Start => state::to_passive(state),
        Command::Baud(code) => state::to_passive(state::with_baud(state, code)),
        Command::Control => state::with_mode(state, command::SAFE),
        Command::Safe => state::with_mode(state, command::SAFE),
        Command::Full => state::with_mode(state, command::FULL),
        Command::Power => state::to_passive(state),
        Command::Demo(_) => state::to_passive(state),
        Command::Spot => state::to_passive(state),
        Command::Cover => state::to_passive(state),
        Command::Dock => state::to_passive(state),
        Command::Drive(velocity, radius) => state::with_wheels(
            state,
            state::DRIVE,
            velocity,
            radius,
        ),
        Command::Direct(right, left) => state::with_wheels(state, state::DIRECT, right, left),
        Command::Drivers(bits) => with_drivers(state, bits),
        Command::Duties(two, one, zero) => state::with_duties(state, [zero, one, two]),
        Command::Leds(bits, color, intensity) => state::with_leds(state, [bits, color, intensity]),
        Command::Outputs(bits) => state::with_outputs(state, bits),
        Command::Infrared(code) => state::with_infrared(state, code),
        Command::Song(song, notes) => state::with_song(state, song, notes, payload),
        Command::Play(song) => state::with_played(state, song),
        Command::Sensors(_) => state,
        Command::QueryList(_) => state,
        Command::Stream(ids) => state::with_streamed(state, ids, payload),
        Command::Pause(on) => state::with_streaming(state, on),
        Command::Unknown(_) => state,
        Command::NotOffered(_) => state,
    }
}
