// 01, 'Setup': the examination of the setup's places, 4.
ghost use Rattle.std.specs.Prelude.{◌≡◌};
ghost use Rattle.model.specs.Ranges.{all};
ghost use Rattle.model.specs.Setup.{place_ok, own_places};

use model::Setup;
use ranges::places::places_ok;

// 4: every place of the setup is one of the string's points.
pub fn own_places_ok(setup: Setup) -> bool
    ensures { result ≡ all (place_ok setup) (own_places setup) }
{
    places_ok(
        setup,
        &[
            setup.finger.place,
            setup.pluck_place,
            setup.bridge_place,
            setup.neck_place,
        ],
    )
}
