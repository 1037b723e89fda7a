// A booked bend, for C.
ghost use Rattle.std.specs.Prelude.{◌≡◌};
ghost use Rattle.model.specs.Book.{columns};
ghost use Rattle.model.specs.Booking.{booked_bend};
ghost use Rattle.rows.specs.Rows.{setup_of, bent_view, bent_row};

use rows::bent_row::{BentRow, bent_row};
use rows::setup_row::SetupRow;
use voice::{Book, Finger, Setup, bend_booked};

// `voice::bend_booked`.
#[unsafe(no_mangle)]
pub extern "C" fn sv_bend_booked(
    setup: SetupRow,
    tension: u32,
    first: &[i32],
    second: &[i32],
    contact: &[i32],
    turn: u32,
    finger: Finger,
    book: Book,
) -> BentRow
    ensures { bent_view result ≡ bent_row setup (booked_bend (setup_of setup)
        (record { first = first.now; second = second.now; contact = contact.now; turn = turn; finger = finger }) (columns book) tension) }
{
    let mut entered = book;
    let answer = bend_booked(
        Setup::from(setup),
        tension,
        first,
        second,
        contact,
        turn,
        finger,
        &mut entered,
    );
    bent_row(setup, answer, entered)
}
