// Tests of places: whether one, or each of a list, is a point of the string, and whether a list of frets increases.
ghost use Rattle.std.specs.Prelude.{◌≡◌};
ghost use Rattle.model.specs.Ranges.{all};
ghost use Rattle.model.specs.Setup.{place_ok};
ghost use Rattle.model.specs.Neck as Neck;

use model::Setup;

// The place is one of the string's points, 1 to N − 1.
pub fn place_ok(setup: Setup, place: u32) -> bool
    ensures { result ≡ place_ok setup place }
{
    (1 <= place) & (place < setup.segments)
}

pub fn places_ok(setup: Setup, places: &[u32]) -> bool
    ensures { result ≡ all (place_ok setup) places.now }
{
    let mut ok = true;
    for place in places {
        ok &= place_ok(setup, *place);
    }
    ok
}

// Each place is below the next.
pub fn increasing(frets: &[u32]) -> bool
    ensures { result ≡ Neck.increasing frets.now }
{
    let mut ok = true;
    for i in 1..frets.len() {
        ok &= frets[i - 1] < frets[i];
    }
    ok
}
