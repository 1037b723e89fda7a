// A booked bend's answer for C.
ghost use Rattle.std.specs.Prelude.{◌≡◌};
ghost use Rattle.model.specs.Book.{columns};
ghost use Rattle.model.specs.Refusal.{answer_of};
ghost use Rattle.rows.specs.Rows.{bent_view, bent_row};

use crate::changed_row::changed_row;
use crate::setup_row::SetupRow;
use model::refusal::Refusal;
use model::{Book, Setup};

// The refusal, 0 where there is none, the new setup and the book; after a refusal the setup and the book that were passed in.
#[repr(C)]
#[derive(Clone, Copy)]
pub struct BentRow {
    pub refusal: u32,
    pub setup: SetupRow,
    pub book: Book,
}

// The row of an answer, where `passed` is the setup that was passed in, and the book is that after the call.
pub fn bent_row(passed: SetupRow, answer: Result<Setup, Refusal>, book: Book) -> BentRow
    ensures { bent_view result ≡ bent_row passed (record { answer = answer_of answer; book = columns book }) }
{
    let changed = changed_row(passed, answer);
    BentRow {
        refusal: changed.refusal,
        setup: changed.setup,
        book,
    }
}
