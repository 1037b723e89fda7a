// Reading a place, for C.
ghost use Rattle.std.specs.Prelude.{◌≡◌};
ghost use Rattle.model.specs.Reading.{reading};
ghost use Rattle.rows.specs.Rows.{reading_row, setup_of};

use rows::reading_row::{ReadingRow, reading_row};
use rows::setup_row::SetupRow;
use voice::{Setup, read_place};

// `voice::read_place`.
#[unsafe(no_mangle)]
pub extern "C" fn sv_read_place(
    setup: SetupRow,
    heights: &[i32],
    first: &[i32],
    second: &[i32],
    turn: u32,
    place: u32,
) -> ReadingRow
    ensures { result ≡ reading_row (reading (setup_of setup) heights.now first.now second.now turn place) }
{
    reading_row(read_place(Setup::from(setup), heights, first, second, turn, place))
}
