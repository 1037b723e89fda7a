// The examination of a setup, for C.
ghost use Rattle.std.specs.Prelude.{◌≡◌};
ghost use Rattle.model.specs.Setup as Setups;
ghost use Rattle.rows.specs.Rows.{number, setup_of};

use rows::numbers::refusal_number;
use rows::setup_row::SetupRow;
use voice::{Setup, check_setup};

// `voice::check_setup`: the refusal, 0 where the setup is accepted.
#[unsafe(no_mangle)]
pub extern "C" fn sv_check_setup(setup: SetupRow) -> u32
    ensures { result ≡ number (Setups.setup (setup_of setup)) }
{
    refusal_number(check_setup(Setup::from(setup)))
}
