// 01, 'Setup': the eleven numbers of a setup are examined, 1 to 5. One function for each row of the table. A bend and a slide are examined in the same way.
#![tactic(auto)]

pub mod bend;
pub mod coefficients;
pub mod places;
pub mod slide;

ghost use Rattle.std.specs.Prelude.{◌≡◌};
ghost use Rattle.model.specs.Refusal.{first_of, answer_of, refusal_of};
ghost use Rattle.model.specs.Setup as Setups;
ghost use Rattle.model.specs.Setup.{setup_rules};

use crate::coefficients::{coefficient_wrong, sum_wrong};
use crate::places::own_places_ok;
use model::Setup;
use model::bounds::{LARGEST_MASS, LEAST_MASS, LEAST_SEGMENTS, MOST_SEGMENTS};
use model::refusal::Refusal;
use ranges::numbers::between;

// Its refusal, 1 to 5, if it has one. Every entry begins with it.
pub fn examine_setup(setup: Setup) -> Result<(), Refusal>
    ensures { refusal_of result ≡ first_of (setup_rules setup) }
{
    if !between(LEAST_SEGMENTS, setup.segments, MOST_SEGMENTS) {
        return Err(Refusal::Segments);
    }
    if coefficient_wrong(setup) {
        return Err(Refusal::Coefficient);
    }
    if sum_wrong(setup.tension, setup.stiffness, setup.viscous) {
        return Err(Refusal::CoefficientSum);
    }
    if !own_places_ok(setup) {
        return Err(Refusal::Place);
    }
    if !between(LEAST_MASS, setup.finger.mass, LARGEST_MASS) {
        return Err(Refusal::Mass);
    }
    Ok(())
}

// The setup itself, or its refusal.
pub fn check_setup(setup: Setup) -> Result<Setup, Refusal>
    ensures { answer_of result ≡ Setups.setup setup }
{
    examine_setup(setup)?;
    Ok(setup)
}
