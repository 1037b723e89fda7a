// The distance of a fret from the bridge, and its place.
ghost use Rattle.std.specs.Prelude.{◌≡◌, ◌-◌, ◌*◌, ◌^◌, ◌≤◌, pos};
ghost use Rattle.std.specs.Int.Signed.{le_z};
ghost use Rattle.model.specs.Frets as Frets;
ghost use Rattle.model.specs.Frets.{fret_place};
ghost use Rattle.model.specs.Wide.{value};

use crate::powers::scaled_power;
use model::Wide;
use wide::order::at_most;

// (2d − 1)^12 · 2^q is at most `whole`.
fn reaches(d: u32, q: u32, whole: Wide) -> bool
    requires { (1 ≤ d) × (d ≤ 128) × (q ≤ 24) }
    ensures { result ≡ le_z (pos ((2 * d - 1) ^ 12 * 2 ^ q)) (value whole) }
{
    at_most(scaled_power(2 * d - 1, q), whole)
}

// The distance of fret q, by halving: it is from `low` to `high`.
fn distance(segments: u32, q: u32) -> u32
    requires { (2 ≤ segments) × (segments ≤ 128) × (q ≤ 24) }
    ensures { result ≡ Frets.distance segments q }
{
    let whole = scaled_power(2 * segments, 0);
    let mut low = 1;
    let mut high = segments;
    while low < high {
        let middle = (low + high + 1) / 2;
        if reaches(middle, q, whole) {
            low = middle;
        } else {
            high = middle - 1;
        }
    }
    low
}

// The place of fret q.
#[tactic(auto, using(laws::specs::Frets::distance_most), unfolding(model::specs::Frets::fret_place))]
pub fn place(segments: u32, q: u32) -> u32
    requires { (2 ≤ segments) × (segments ≤ 128) × (q ≤ 24) }
    ensures { result ≡ fret_place segments q }
{
    segments - distance(segments, q)
}
