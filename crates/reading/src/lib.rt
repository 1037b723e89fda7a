// 01, 'Playing a block, reading a place': the newest displacement at a place and, where the string is pressed there, its depth. `newest`
// hands back the newest string, and `shown` says how a point lies over the neck.
#![tactic(auto)]

pub mod newest;
pub mod shown;

ghost use Rattle.std.specs.Prelude.{◌≡◌};
ghost use Rattle.model.specs.Reading.{reading, reading_rules};
ghost use Rattle.model.specs.Refusal.{first_of, refusal_of};

use crate::newest::newest;
use crate::shown::shown;
use model::refusal::Refusal;
use model::{Reading, Setup};
use ranges::lengths::lengths_ok;
use ranges::numbers::{Displacement, Height, all_hold};
use ranges::places::place_ok;
use setup::examine_setup;

// Reads a place, or answers the number of its refusal.
#[tactic(auto, using(crate::proofs::AtPlace::at_place))]
pub fn read_place(
    setup: Setup,
    heights: &[i32],
    first: &[i32],
    second: &[i32],
    turn: u32,
    place: u32,
) -> Reading
    ensures { result ≡ reading setup heights.now first.now second.now turn place }
{
    match examine(setup, heights, first, second, turn, place) {
        Ok(()) => {
            let string = newest(first, second, turn);
            let index = place as usize - 1;
            shown(string[index], heights[index])
        }
        Err(refusal) => Reading::Refused(refusal.number()),
    }
}

// Its refusal, if it has one. Both strings are measured, and only the newest is examined.
#[tactic(auto, using(crate::proofs::Table::rows), unfolding(model::specs::Reading::reading_rules))]
fn examine(
    setup: Setup,
    heights: &[i32],
    first: &[i32],
    second: &[i32],
    turn: u32,
    place: u32,
) -> Result<(), Refusal>
    ensures { refusal_of result ≡ first_of (reading_rules setup heights.now first.now second.now turn place) }
{
    examine_setup(setup)?;
    if !place_ok(setup, place) {
        return Err(Refusal::Place);
    }
    if !lengths_ok(setup, &[heights.len(), first.len(), second.len()]) {
        return Err(Refusal::BufferLength);
    }
    if !all_hold::<Height>(heights) {
        return Err(Refusal::Height);
    }
    if !all_hold::<Displacement>(newest(first, second, turn)) {
        return Err(Refusal::State);
    }
    Ok(())
}
