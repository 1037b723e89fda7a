// 01, 'One step': the examination of a fresh start's finger, 10.
ghost use Rattle.std.specs.Prelude.{◌≡◌};
ghost use Rattle.model.specs.Start.{finger_ok};

use model::bounds::START_HEIGHT;
use ranges::numbers::{Displacement, Kind, inside};

// 10: the finger's height lies from 0 to 1,048,576, its older height in the range of displacements.
pub fn finger_ok(height: i32, older: i32) -> bool
    ensures { result ≡ finger_ok height older }
{
    inside(height as i64, START_HEIGHT) & Displacement::holds(older as i64)
}
