// A booked step, for C.
ghost use Rattle.std.specs.Prelude.{◌≡◌};
ghost use Rattle.model.specs.Book.{columns};
ghost use Rattle.model.specs.Booking.{booked_step};
ghost use Rattle.capi.specs.Calls.{booked_call};
ghost use Rattle.rows.specs.Rows.{setup_of, booked_view};

use rows::booked_row::{BookedRow, booked_row};
use rows::setup_row::SetupRow;
use voice::{Book, Finger, Forces, Lent, Neck, Setup, step_booked};

// `voice::step_booked`.
#[unsafe(no_mangle)]
pub extern "C" fn sv_step_booked(
    setup: SetupRow,
    heights: &[i32],
    stiffness: &[u16],
    first: &mut [i32],
    second: &mut [i32],
    contact: &mut [i32],
    turn: u32,
    finger: Finger,
    pluck: i32,
    finger_force: i32,
    book: Book,
) -> BookedRow
    ensures { record { row = booked_view result; first = first.new; second = second.new; contact = contact.new } ≡ booked_call (booked_step (setup_of setup)
        (record { heights = heights.now; stiffness = stiffness.now })
        (record { first = first.old; second = second.old; contact = contact.old; turn = turn; finger = finger })
        (columns book) (record { pluck = pluck; finger = finger_force })) }
{
    let neck = Neck { heights, stiffness };
    let mut lent = Lent {
        first,
        second,
        contact,
        turn,
        finger,
    };
    let forces = Forces {
        pluck,
        finger: finger_force,
    };
    let mut entered = book;
    let answer = step_booked(Setup::from(setup), neck, &mut lent, forces, &mut entered);
    booked_row(answer, &lent, entered)
}
