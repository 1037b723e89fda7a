// The places of a list of frets: judged (19) before any is written, and so worked out twice, which takes no room for a copy.
ghost use Rattle.std.specs.Prelude.{◌≡◌, ◌≤◌, length};
ghost use Rattle.model.specs.Frets.{fret_places, places_clash};

use crate::distance::place;

// 19: a fret falls on place 0 or on its predecessor's place.
pub fn clash(segments: u32, number: u32) -> bool
    requires { (2 ≤ segments) × (segments ≤ 128) × (number ≤ 24) }
    ensures { result ≡ places_clash (fret_places segments number) }
{
    let mut found = false;
    let mut previous = 0;
    for k in 0..number {
        let own = place(segments, k + 1);
        found |= (0 == own) | (previous == own);
        previous = own;
    }
    found
}

// Writes the places of as many frets as the buffer is long.
pub fn write_places(segments: u32, places: &mut [u32])
    requires { (2 ≤ segments) × (segments ≤ 128) × (length places.old ≤ 24) }
    ensures { places.new ≡ fret_places segments (length places.old) }
{
    for k in 0..places.len() {
        places[k] = place(segments, (k + 1) as u32);
    }
}
