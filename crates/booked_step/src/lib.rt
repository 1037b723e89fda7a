// 02, item 6: a booked step, a step and its booking in one, whose arguments are all examined, in the order of its table of refusals. `ready` makes the step and
// books it; `booking` has what is kept of the state before it, and enters it by that and the state after it.
#![tactic(auto)]

pub mod booking;
pub mod ready;

ghost use Rattle.std.specs.Prelude.{◌≡◌};
ghost use Rattle.model.specs.Book.{columns};
ghost use Rattle.model.specs.Booking.{booked_step};
ghost use Rattle.model.specs.Lending.{the_neck, the_lent, SameBuffers};
ghost use Rattle.model.specs.Refusal.{answer_of};

use crate::ready::booked_ready;
use book::refusals::examine_book;
use examination::arguments::{examine_buffers, examine_state, in_order};
use examination::rows::forces_ok;
use model::refusal::Refusal;
use model::{Book, Forces, Frame, Lent, Neck, Setup};

// Steps the voice as `step` does, and enters the step in the book too; or answers the refusal and leaves all that is lent, and the book.
pub fn step_booked(
    setup: Setup,
    neck: Neck,
    lent: &mut Lent,
    forces: Forces,
    book: &mut Book,
) -> Result<Frame, Refusal>
    ensures same { SameBuffers lent.old lent.new }
    ensures booked { record { answer = answer_of result; lent = the_lent lent.new; book = columns book.new }
        ≡ booked_step setup (the_neck neck.entry) (the_lent lent.old) (columns book.old)
        (record { pluck = forces.pluck; finger = forces.finger }) }
{
    let state = in_order(lent);
    examine_buffers(setup, neck, state)?;
    examine_state(neck.heights, state)?;
    if !forces_ok(forces) {
        return Err(Refusal::Force);
    }
    examine_book(*book)?;
    booked_ready(setup, neck, lent, forces, book)
}
