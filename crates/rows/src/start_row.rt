// A fresh start's answer for C.
ghost use Rattle.std.specs.Prelude.{◌≡◌};
ghost use Rattle.model.specs.Answers.{start_answer};
ghost use Rattle.rows.specs.Rows.{start_view, start_row};

use model::refusal::Refusal;
use model::{Book, Finger, Started};

// The refusal, and turn, finger and book.
#[repr(C)]
#[derive(Clone, Copy)]
pub struct StartRow {
    pub refusal: u32,
    pub turn: u32,
    pub finger: Finger,
    pub book: Book,
}

// The row of an answer.
pub fn start_row(answer: Result<Started, Refusal>) -> StartRow
    ensures { start_view result ≡ start_row (start_answer answer) }
{
    match answer {
        Ok(started) => {
            let finger = started.finger;
            let book = started.book;
            StartRow {
                refusal: 0,
                turn: started.turn,
                finger,
                book,
            }
        }
        Err(refusal) => StartRow {
            refusal: refusal.number(),
            turn: 0,
            finger: Finger::default(),
            book: Book::default(),
        },
    }
}
