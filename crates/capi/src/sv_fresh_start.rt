// The fresh start, for C.
ghost use Rattle.std.specs.Prelude.{◌≡◌};
ghost use Rattle.model.specs.Start.{start};
ghost use Rattle.capi.specs.Calls.{start_call};
ghost use Rattle.rows.specs.Rows.{setup_of, start_view};

use rows::setup_row::SetupRow;
use rows::start_row::{StartRow, start_row};
use voice::{Setup, fresh_start};

// `voice::fresh_start`.
#[unsafe(no_mangle)]
pub extern "C" fn sv_fresh_start(
    setup: SetupRow,
    first: &mut [i32],
    second: &mut [i32],
    contact: &mut [i32],
    height: i32,
    older_height: i32,
) -> StartRow
    ensures { record { row = start_view result; first = first.new; second = second.new; contact = contact.new } ≡ start_call (start (setup_of setup)
        first.old second.old contact.old height older_height) }
{
    start_row(fresh_start(
        Setup::from(setup),
        first,
        second,
        contact,
        height,
        older_height,
    ))
}
