// A changed setup for C: what a bend and a slide answer.
ghost use Rattle.std.specs.Prelude.{◌≡◌};
ghost use Rattle.model.specs.Refusal.{answer_of};
ghost use Rattle.rows.specs.Rows.{changed_row};

use crate::setup_row::SetupRow;
use model::Setup;
use model::refusal::Refusal;

// The refusal, 0 where there is none, and the new setup; after a refusal the setup that was passed in.
#[repr(C)]
#[derive(Clone, Copy)]
pub struct ChangedRow {
    pub refusal: u32,
    pub setup: SetupRow,
}

// The row of an answer, where `passed` is the setup that was passed in.
pub fn changed_row(passed: SetupRow, answer: Result<Setup, Refusal>) -> ChangedRow
    ensures { result ≡ changed_row passed (answer_of answer) }
{
    match answer {
        Ok(setup) => ChangedRow {
            refusal: 0,
            setup: SetupRow::from(setup),
        },
        Err(refusal) => ChangedRow {
            refusal: refusal.number(),
            setup: passed,
        },
    }
}
