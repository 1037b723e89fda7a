// A booked step's answer for C.
ghost use Rattle.std.specs.Prelude.{◌≡◌};
ghost use Rattle.model.specs.Book.{columns};
ghost use Rattle.model.specs.Lending.{the_lent};
ghost use Rattle.model.specs.Refusal.{answer_of};
ghost use Rattle.rows.specs.Rows.{booked_view, booked_row};

use crate::step_row::step_row;
use model::refusal::Refusal;
use model::{Book, Finger, Frame, Lent};

// The refusal, turn, finger, frame and book.
#[repr(C)]
#[derive(Clone, Copy)]
pub struct BookedRow {
    pub refusal: u32,
    pub turn: u32,
    pub finger: Finger,
    pub frame: Frame,
    pub book: Book,
}

// The row of an answer, with turn, finger and book as they are after the call: after a refusal those that were passed in.
pub fn booked_row(answer: Result<Frame, Refusal>, lent: &Lent, book: Book) -> BookedRow
    ensures { booked_view result ≡ booked_row (record { answer = answer_of answer; lent = the_lent lent.now; book = columns book }) }
{
    let stepped = step_row(answer, lent);
    BookedRow {
        refusal: stepped.refusal,
        turn: stepped.turn,
        finger: stepped.finger,
        frame: stepped.frame,
        book,
    }
}
