// What is entered in a book: a fresh start, a step, a bend.
ghost use Rattle.std.specs.Prelude.{◌≡◌, ◌^◌, ◌<◌, pos};
ghost use Rattle.integers.specs.Size.{◌within◌};
ghost use Rattle.model.specs.Book.{columns};
ghost use Rattle.model.specs.Wide.{value};
ghost use Rattle.book.specs.Entering.{Small, Passing, left_over, with_change, raised_book};

use model::{Book, Wide};
use wide::sums::added;

// What a step brings: the stored energy before and after it, its work and its loss.
#[derive(Clone, Copy)]
pub struct Change {
    pub before: Wide,
    pub after: Wide,
    pub work: i64,
    pub loss: Wide,
}

// A book with this stored energy, and zeros.
pub fn new_book(stored: Wide) -> Book
    ensures { columns result ≡ record { stored = value stored; work = pos 0; loss = pos 0; rounding = pos 0; count = 0 } }
{
    Book {
        stored,
        ..Book::default()
    }
}

// A step's rounding work: what its energies, its work and its loss leave.
fn rounding_work(change: Change) -> Wide
    requires { Small change }
    ensures { value result ≡ left_over change }
{
    let work = change.work;
    let gained = change.after - change.before;
    added(gained + change.loss, 0 - work)
}

// The book after a step.
#[tactic(auto, using(crate::specs::Entering::left_over_size))]
pub fn with_step(book: Book, change: Change) -> Book
    requires { Small change × Passing book × (book.count < 4294967295) }
    ensures { columns result ≡ with_change (columns book) change }
{
    let stored = change.after;
    let rest = rounding_work(change);
    Book {
        stored,
        work: added(book.work, change.work),
        loss: book.loss + change.loss,
        rounding: book.rounding + rest,
        count: book.count + 1,
    }
}

// The book after a bend, which is booked as work.
pub fn with_bend(book: Book, stored: Wide, work: Wide) -> Book
    requires { (value book.work within 2 ^ 120) × (value work within 2 ^ 84) }
    ensures { columns result ≡ raised_book (columns book) (value stored) (value work) }
{
    Book {
        stored,
        work: book.work + work,
        ..book
    }
}
