// 02, item 6: an accepted step is entered in a book, by the states before and after it.
ghost use Rattle.std.specs.Prelude.{◌≡◌, [], ◌∷◌, ◌≤◌, ◌^◌, T, length, take};
ghost use Rattle.integers.specs.Size.{◌within◌};
ghost use Rattle.laws.specs.EnergySizes.{Strings, Held};
ghost use Rattle.laws.specs.Ready.{Ready};
ghost use Rattle.model.specs.Book.{columns, count_rule};
ghost use Rattle.model.specs.Lending.{the_neck, the_state};
ghost use Rattle.model.specs.Ranges.{displacement_ok, force_ok};
ghost use Rattle.model.specs.Wide.{value};
ghost use Rattle.promises.specs.Promises.{Passed};
ghost use Rattle.book.specs.Entering.{Passing};
ghost use Rattle.booked_step.specs.Booking as Booking;
ghost use Rattle.booked_step.specs.Booking.{kept, with_parts};

use book::entering::{Change, with_step};
use energy::loss::{released_energy, step_loss};
use energy::stored::stored_energy;
use energy::work::step_work;
use model::bounds::MOST_POINTS;
use model::{Book, Forces, Neck, Setup, State, Wide};

// What booking a step needs of the state before it: the stored energy, what is let go, and what the step overwrites: the older string, at the front of
// `older`, and the finger's older height.
#[derive(Clone, Copy)]
pub struct Before {
    pub stored: Wide,
    pub released: i64,
    pub older: [i32; MOST_POINTS],
    pub height: i32,
}

// A copy of a string, at the front.
fn copy_of(string: &[i32]) -> [i32; MOST_POINTS]
    requires { length string.now ≤ 127 }
    ensures { (length result ≡ 127) × (take (length string.now) result ≡ string.now) }
{
    let mut copy = [0i32; MOST_POINTS];
    copy[..string.len()].copy_from_slice(string);
    copy
}

// That of a state.
pub fn before_step(setup: Setup, neck: Neck, state: State) -> Before
    requires { Ready setup (the_neck neck) (the_state state) }
    ensures { (length result.older ≡ 127) × (kept (length state.entry.older.now) result ≡ Booking.before setup (the_neck neck.entry) (the_state state.entry)) }
{
    Before {
        stored: stored_energy(setup, state),
        released: released_energy(setup, neck.heights, state),
        older: copy_of(state.older),
        height: state.finger.older,
    }
}

// The book after a step from `before` to the state `after`.
pub fn book_step(setup: Setup, book: Book, before: &Before, after: State, forces: Forces) -> Book
    requires { Held setup (the_state after) × (length before.now.older ≡ 127) × Strings after.newer.now (take (length after.newer.now) before.now.older)
        × (value before.now.stored within 2 ^ 65) × (before.now.released within 2 ^ 60) × T (force_ok forces.pluck) × T (force_ok forces.finger)
        × T (displacement_ok before.now.height) × Passing book × Passed (count_rule (columns book) ∷ []) }
    ensures { columns result ≡ with_parts setup (columns book) (kept (length after.entry.newer.now) before.now) (the_state after.entry)
        (record { pluck = forces.pluck; finger = forces.finger }) }
{
    let older = &before.older[..after.newer.len()];
    let change = Change {
        before: before.stored,
        after: stored_energy(setup, after),
        work: step_work(
            setup,
            forces,
            after.newer,
            older,
            after.finger.newer,
            before.height,
        ),
        loss: step_loss(setup, after.newer, older, before.released),
    };
    with_step(book, change)
}
