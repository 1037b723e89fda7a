// 02, item 5: a bend. The setup is examined with the new tension in place of the old, which is not examined.
ghost use Rattle.std.specs.Prelude.{◌≡◌};
ghost use Rattle.model.specs.Refusal.{answer_of};
ghost use Rattle.model.specs.Changes as Changes;

use crate::check_setup;
use model::Setup;
use model::refusal::Refusal;

// The setup with another tension L, not examined.
pub fn with_tension(setup: Setup, tension: u32) -> Setup
    ensures { result ≡ Changes.with_tension setup tension }
{
    Setup { tension, ..setup }
}

// The setup with another tension L, or its refusal.
pub fn bend(setup: Setup, tension: u32) -> Result<Setup, Refusal>
    ensures { answer_of result ≡ Changes.bend setup tension }
{
    check_setup(with_tension(setup, tension))
}
