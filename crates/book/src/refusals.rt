// The refusals of a book: 16 for the count, 17 for a column.
ghost use Rattle.std.specs.Prelude.{◌≡◌, [], ◌∷◌};
ghost use Rattle.model.specs.Book.{columns, column_ok, columns_ok, count_rule, columns_rule};
ghost use Rattle.model.specs.Refusal.{first_of, refusal_of};
ghost use Rattle.model.specs.Wide.{value};

use model::refusal::Refusal;
use model::{Book, Wide};
use wide::order::at_most;

// The largest count, in 32 bits.
const LARGEST_COUNT: u32 = u32::MAX;

// The ends of a column's range, −2^120 and 2^120.
const LEAST_COLUMN: Wide = Wide {
    high: -72057594037927936,
    low: 0,
};

const LARGEST_COLUMN: Wide = Wide {
    high: 72057594037927936,
    low: 0,
};

// A column is in the range, ends included.
#[tactic(auto, unfolding(model::specs::Book::column_ok, model::specs::Ranges::inside))]
fn column_ok(column: Wide) -> bool
    ensures { result ≡ column_ok (value column) }
{
    at_most(LEAST_COLUMN, column) & at_most(column, LARGEST_COLUMN)
}

// Every column is.
pub fn columns_ok(book: Book) -> bool
    ensures { result ≡ columns_ok (columns book) }
{
    column_ok(book.stored) & column_ok(book.work) & column_ok(book.loss) & column_ok(book.rounding)
}

// 16, or else 17.
pub fn examine_book(book: Book) -> Result<(), Refusal>
    ensures { refusal_of result ≡ first_of (count_rule (columns book) ∷ columns_rule (columns book) ∷ []) }
{
    if book.count == LARGEST_COUNT {
        return Err(Refusal::BookCount);
    }
    if !columns_ok(book) {
        return Err(Refusal::BookColumn);
    }
    Ok(())
}
