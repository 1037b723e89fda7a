// 01, 'What each operation turns down': the arguments that a step and a block share. Setup and buffers, 1 to 5 and 6, and then neck and state, 7 and 11,
// whatever the turn.
ghost use Rattle.std.specs.Prelude.{◌≡◌, ℕ};
ghost use Rattle.laws.specs.Advance.{in_order};
ghost use Rattle.laws.specs.Call.{lent_with, buffer_rows, state_rows};
ghost use Rattle.model.specs.Lending.{the_neck, the_lent, the_state};
ghost use Rattle.model.specs.Refusal.{first_of, refusal_of};
ghost use Rattle.model.specs.State.{state_of};

use crate::rows::state_ok;
use model::refusal::Refusal;
use model::{Lent, Neck, Setup, State};
use ranges::lengths::lengths_ok;
use ranges::numbers::{Height, all_hold};
use setup::examine_setup;

// What is lent, to be looked at: the strings in the order in which they are lent.
pub fn in_order<'a>(lent: &'a Lent) -> State<'a>
    ensures { the_state result ≡ in_order (the_lent lent.now) }
{
    State {
        newer: lent.first,
        older: lent.second,
        contact: lent.contact,
        finger: lent.finger,
    }
}

// Their refusal, 1 to 5 or 6, if they have one. The strings are in the order in which they are lent.
pub fn examine_buffers(setup: Setup, neck: Neck, state: State) -> Result<(), Refusal>
    ensures { (turn : ℕ) → refusal_of result ≡ first_of (buffer_rows setup (the_neck neck.entry)
        (state_of (lent_with turn state.entry.finger state.entry.newer.now state.entry.older.now state.entry.contact.now))) }
{
    examine_setup(setup)?;
    let lengths = [
        neck.heights.len(),
        neck.stiffness.len(),
        state.newer.len(),
        state.older.len(),
        state.contact.len(),
    ];
    if !lengths_ok(setup, &lengths) {
        return Err(Refusal::BufferLength);
    }
    Ok(())
}

// Their refusal, 7 or 11, if they have one. The strings are in the order in which they are lent.
pub fn examine_state(heights: &[i32], state: State) -> Result<(), Refusal>
    ensures { (turn : ℕ) → refusal_of result ≡ first_of (state_rows heights.now
        (state_of (lent_with turn state.entry.finger state.entry.newer.now state.entry.older.now state.entry.contact.now))) }
{
    if !all_hold::<Height>(heights) {
        return Err(Refusal::Height);
    }
    if !state_ok(state) {
        return Err(Refusal::State);
    }
    Ok(())
}
