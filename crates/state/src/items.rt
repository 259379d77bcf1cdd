// Which items of the record's test a record breaks, for one who made a record and asks what is
// wrong with it. Each item has a function, here or in lib.rt, by its own definition; the one of the
// held frame is in frame.
// The board itself asks `accepts`, which goes through the record once and stops at the first item
// that does not hold.
ghost use Rattle.std.specs.Prelude.{◌≡◌, cond};
ghost use Rattle.std.specs.List.{list_all};
ghost use Rattle.state.specs.Accepted.{mode_named, order_named, wheels_legal, outputs_legal, baud_legal, selected_legal, stream_legal, length_legal, playing_set, notes_zero, ids_zero, is_flag, broken_of};

use crate::{Kept, Motors, Song, Songs, State, Stream, duties_legal, off_unless_driven, wheels_ok};

#[tactic(auto, using(crate::proofs::AcceptedLaws::mode_named_lem))]
fn mode_named(mode: u8) -> bool
    ensures { result ≡ mode_named mode }
{
    mode <= command::FULL
}

#[tactic(auto, using(crate::proofs::AcceptedLaws::order_named_lem))]
fn order_named(motors: Motors) -> bool
    ensures { result ≡ order_named motors }
{
    motors.order <= crate::DIRECT
}

// Of a kind that is not named the numbers may be anything: it breaks the item of the kinds alone.
#[tactic(auto, using(crate::proofs::AcceptedLaws::unnamed_legal))]
fn wheels_legal(motors: Motors) -> bool
    ensures { result ≡ wheels_legal motors }
{
    !order_named(motors) || wheels_ok(motors)
}

#[tactic(auto, using(crate::proofs::AcceptedLaws::outputs_tested))]
fn outputs_legal(kept: Kept) -> bool
    ensures { result ≡ outputs_legal kept }
{
    kept.outputs <= command::LAST_OUTPUTS
}

#[tactic(auto, using(crate::proofs::AcceptedLaws::baud_tested))]
fn baud_legal(kept: Kept) -> bool
    ensures { result ≡ baud_legal kept }
{
    kept.baud <= command::LAST_BAUD
}

#[tactic(auto, using(crate::proofs::AcceptedLaws::selected_tested))]
fn selected_legal(songs: &Songs) -> bool
    ensures { result ≡ selected_legal songs.now }
{
    songs.selected <= command::LAST_SONG
}

// 148's rule, of the count and of the ids in use.
#[tactic(auto, using(crate::proofs::AcceptedLaws::list_tested))]
fn stream_legal(stream: &Stream) -> bool
    ensures { result ≡ stream_legal stream.now }
{
    stream.count <= frame::LEGAL_COUNT
        && packet::streamable(&stream.ids[..usize::from(stream.count)])
}

#[tactic(auto, using(crate::proofs::AcceptedLaws::length_legal_lem))]
fn length_legal(song: &Song) -> bool
    ensures { result ≡ length_legal song.now }
{
    song.len <= frame::LEGAL_COUNT
}

fn lengths_legal(table: &[Song; 16]) -> bool
    ensures { result ≡ list_all length_legal table.now }
{
    table.iter().all(length_legal)
}

// There is no song of 16 and above: with one selected, none is set.
#[tactic(auto, using(crate::proofs::AcceptedLaws::playing))]
pub(crate) fn playing_set(songs: &Songs) -> bool
    ensures { result ≡ playing_set songs.now }
{
    songs.playing != crate::YES
        || (songs.selected <= command::LAST_SONG
            && songs.table[usize::from(songs.selected)].len != 0)
}

#[tactic(auto, unfolding(crate::specs::Accepted::notes_zero))]
fn song_clear(song: Song) -> bool
    ensures { result ≡ notes_zero song }
{
    wire::clear_from(&song.notes, 2 * usize::from(song.len))
}

fn notes_zero(table: &[Song; 16]) -> bool
    ensures { result ≡ list_all notes_zero table.now }
{
    table.iter().all(|&song| song_clear(song))
}

#[tactic(auto, unfolding(crate::specs::Accepted::ids_zero))]
fn ids_zero(stream: &Stream) -> bool
    ensures { result ≡ ids_zero stream.now }
{
    wire::clear_from(&stream.ids, usize::from(stream.count))
}

fn is_flag(flag: u8) -> bool
    ensures { result ≡ is_flag flag }
{
    flag <= crate::YES
}

// The mark of an item: a number and no bool, as `broken_of` has it.
fn mark(holds: bool) -> u8
    ensures { result ≡ cond holds 0 1 }
{
    u8::from(!holds)
}

// Which items a record breaks, in the order of specs/Accepted.antt's `items`: 1 for each that it
// breaks, and 0 for each that holds. The board takes a record that breaks none.
pub fn broken(state: State) -> [u8; 16]
    ensures { result ≡ broken_of state }
{
    let State {
        mode,
        motors,
        kept,
        songs,
        stream,
        partial,
    } = state;
    [
        mark(mode_named(mode)),
        mark(order_named(motors)),
        mark(off_unless_driven(mode, motors)),
        mark(wheels_legal(motors)),
        mark(duties_legal(motors)),
        mark(outputs_legal(kept)),
        mark(baud_legal(kept)),
        mark(selected_legal(&songs)),
        mark(stream_legal(&stream)),
        mark(lengths_legal(&songs.table)),
        mark(playing_set(&songs)),
        mark(notes_zero(&songs.table)),
        mark(ids_zero(&stream)),
        mark(frame::reachable(partial)),
        mark(is_flag(songs.playing)),
        mark(is_flag(stream.on)),
    ]
}
