// 01, 'Playing a block, reading a place': how a point lies over the neck, free or pressed, and how deep.
ghost use Rattle.std.specs.Prelude.{◌≡◌, T};
ghost use Rattle.model.specs.Ranges.{displacement_ok, height_ok};
ghost use Rattle.model.specs.Reading.{reading_of};

use model::Reading;
use samples::fractions::double;

// What a displacement u over a neck of this height shows: pressed where the depth, height − u, is above 0.
#[tactic(auto, unfolding(model::specs::Ranges::displacement_ok, model::specs::Ranges::height_ok, model::specs::Ranges::inside))]
pub fn shown(u: i32, height: i32) -> Reading
    requires { T (displacement_ok u) × T (height_ok height) }
    ensures { result ≡ reading_of u height }
{
    let displacement = double(u);
    let depth = height - u;
    if depth > 0 {
        Reading::Pressed(displacement, double(depth))
    } else {
        Reading::Free(displacement)
    }
}
