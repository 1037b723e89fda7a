// 02, item 5: a slide. The setup is examined with the finger's new place in place of the old, which is not examined.
ghost use Rattle.std.specs.Prelude.{◌≡◌};
ghost use Rattle.model.specs.Refusal.{answer_of};
ghost use Rattle.model.specs.Changes as Changes;

use crate::check_setup;
use model::refusal::Refusal;
use model::{FingerSetup, Setup};

// The setup with the finger at another place p, or its refusal.
pub fn slide(setup: Setup, place: u32) -> Result<Setup, Refusal>
    ensures { answer_of result ≡ Changes.slide setup place }
{
    let finger = FingerSetup {
        place,
        ..setup.finger
    };
    check_setup(Setup { finger, ..setup })
}
