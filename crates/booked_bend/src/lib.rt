// 02, item 6: a booked bend: 1 to 5 for the setup with the new tension, 6 and 11 for the state, 17 for the book. `state` bends in the state that the turn selects.
#![tactic(auto)]

pub mod state;

ghost use Rattle.std.specs.Prelude.{◌≡◌};
ghost use Rattle.model.specs.Book.{columns};
ghost use Rattle.model.specs.Booking.{booked_bend};
ghost use Rattle.model.specs.Refusal.{answer_of};

use crate::state::bend_state;
use examination::state::state_at;
use model::refusal::Refusal;
use model::{Book, Finger, Setup};

// Bends the voice: answers the setup with the new tension, and enters the bend in the book; or answers the refusal and leaves the book.
pub fn bend_booked(
    setup: Setup,
    tension: u32,
    first: &[i32],
    second: &[i32],
    contact: &[i32],
    turn: u32,
    finger: Finger,
    book: &mut Book,
) -> Result<Setup, Refusal>
    ensures { record { answer = answer_of result; book = columns book.new } ≡ booked_bend setup
        (record { first = first.now; second = second.now; contact = contact.now; turn = turn; finger = finger }) (columns book.old) tension }
{
    let state = state_at(turn, first, second, contact, finger);
    bend_state(setup, tension, state, book)
}
