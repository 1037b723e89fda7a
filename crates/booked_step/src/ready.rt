// 02, item 6: a booked step of a voice that is ready, with rows 1 to 12, 16 and 17 passed.
ghost use Rattle.std.specs.Prelude.{◌≡◌, [], ◌∷◌, T};
ghost use Rattle.laws.specs.Ready.{Ready};
ghost use Rattle.model.specs.Book.{columns, count_rule, columns_rule};
ghost use Rattle.model.specs.Booking.{booked_step};
ghost use Rattle.model.specs.Lending.{the_neck, the_lent, SameBuffers};
ghost use Rattle.model.specs.Ranges.{all, force_ok};
ghost use Rattle.model.specs.Refusal.{answer_of};
ghost use Rattle.model.specs.State.{state_of};
ghost use Rattle.promises.specs.Promises.{Passed};

use crate::booking::{before_step, book_step};
use examination::state::state_of;
use model::refusal::Refusal;
use model::{Book, Forces, Frame, Lent, Neck, Setup};
use step::turn::step_ready;

// As `step_ready`, and enters the step in the book where it is accepted.
pub fn booked_ready(
    setup: Setup,
    neck: Neck,
    lent: &mut Lent,
    forces: Forces,
    book: &mut Book,
) -> Result<Frame, Refusal>
    requires { Ready setup (the_neck neck) (state_of (the_lent lent.old)) × T (all force_ok (forces.pluck ∷ forces.finger ∷ []))
        × Passed (count_rule (columns book.old) ∷ columns_rule (columns book.old) ∷ []) }
    ensures same { SameBuffers lent.old lent.new }
    ensures booked { record { answer = answer_of result; lent = the_lent lent.new; book = columns book.new }
        ≡ booked_step setup (the_neck neck.entry) (the_lent lent.old) (columns book.old)
        (record { pluck = forces.pluck; finger = forces.finger }) }
{
    let before = before_step(setup, neck, state_of(lent));
    let frame = step_ready(setup, neck, lent, forces)?;
    *book = book_step(setup, *book, &before, state_of(lent), forces);
    Ok(frame)
}
