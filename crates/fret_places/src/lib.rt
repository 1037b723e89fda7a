// 02, item 7: fret places from the semitone rule. `powers` works out the numbers that are compared, `distance` finds a fret's distance from the bridge, `list` judges
// and writes the places of a list of frets.
#![tactic(auto)]

pub mod distance;
pub mod list;
pub mod powers;

ghost use Rattle.std.specs.Prelude.{◌≡◌};
ghost use Rattle.model.specs.Answers.{frets_result};
ghost use Rattle.model.specs.Frets.{fret_rules, frets};
ghost use Rattle.model.specs.Refusal.{first_of, refusal_of};

use crate::list::{clash, write_places};
use model::bounds::{LEAST_SEGMENTS, MOST_FRETS, MOST_SEGMENTS};
use model::refusal::Refusal;
use ranges::numbers::between;

// The refusal of a list of frets in a buffer of this length, if it has one.
#[tactic(auto, unfolding(model::specs::Frets::fret_rules, model::specs::Ranges::between))]
fn examine_frets(segments: u32, number: u32, length: usize) -> Result<(), Refusal>
    ensures { refusal_of result ≡ first_of (fret_rules segments number length) }
{
    if !between(LEAST_SEGMENTS, segments, MOST_SEGMENTS) {
        return Err(Refusal::Segments);
    }
    let asked = number as usize;
    if MOST_FRETS < asked {
        return Err(Refusal::FretCount);
    }
    if length != asked {
        return Err(Refusal::BufferLength);
    }
    if clash(segments, number) {
        return Err(Refusal::FretPlace);
    }
    Ok(())
}

// Writes the places of the first `number` frets on a string of so many segments into the lent buffer, or turns the call down and leaves it.
#[tactic(auto, unfolding(model::specs::Frets::frets))]
pub fn fret_places(segments: u32, number: u32, places: &mut [u32]) -> Result<(), Refusal>
    ensures { frets_result result places.new ≡ frets segments number places.old }
{
    examine_frets(segments, number, places.len())?;
    write_places(segments, places);
    Ok(())
}
