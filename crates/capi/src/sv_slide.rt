// A slide, for C.
ghost use Rattle.std.specs.Prelude.{◌≡◌};
ghost use Rattle.model.specs.Changes as Changes;
ghost use Rattle.rows.specs.Rows.{changed_row, setup_of};

use rows::changed_row::{ChangedRow, changed_row};
use rows::setup_row::SetupRow;
use voice::{Setup, slide};

// `voice::slide`: the setup with the finger at another place, or the refusal and the setup that was passed in.
#[unsafe(no_mangle)]
pub extern "C" fn sv_slide(setup: SetupRow, place: u32) -> ChangedRow
    ensures { result ≡ changed_row setup (Changes.slide (setup_of setup) place) }
{
    changed_row(setup, slide(Setup::from(setup), place))
}
