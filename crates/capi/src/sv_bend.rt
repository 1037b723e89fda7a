// A bend, for C.
ghost use Rattle.std.specs.Prelude.{◌≡◌};
ghost use Rattle.model.specs.Changes as Changes;
ghost use Rattle.rows.specs.Rows.{changed_row, setup_of};

use rows::changed_row::{ChangedRow, changed_row};
use rows::setup_row::SetupRow;
use voice::{Setup, bend};

// `voice::bend`: the setup with another tension, or the refusal and the setup that was passed in.
#[unsafe(no_mangle)]
pub extern "C" fn sv_bend(setup: SetupRow, tension: u32) -> ChangedRow
    ensures { result ≡ changed_row setup (Changes.bend (setup_of setup) tension) }
{
    changed_row(setup, bend(Setup::from(setup), tension))
}
