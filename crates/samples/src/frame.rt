// 01, 'Playing a block, reading a place': the pickup frame, two single-precision numbers, bridge and neck.
ghost use Rattle.std.specs.Prelude.{◌≡◌, T, length};
ghost use Rattle.model.specs.Differences.{at};
ghost use Rattle.model.specs.Ranges.{all, displacement_ok};
ghost use Rattle.model.specs.Setup.{points, setup_rules};
ghost use Rattle.model.specs.Step.{frame_of};
ghost use Rattle.promises.specs.Promises.{Passed};

use crate::fractions::single;
use model::{Frame, Setup};

// A pickup frame of the new displacements at bridge and neck.
pub fn frame(bridge: i32, neck: i32) -> Frame
    requires { T (displacement_ok bridge) × T (displacement_ok neck) }
    ensures { result ≡ frame_of bridge neck }
{
    Frame {
        bridge: single(bridge),
        neck: single(neck),
    }
}

// The pickup frame of a string: its displacements at the bridge and the neck pickup.
pub fn pickup_frame(setup: Setup, string: &[i32]) -> Frame
    requires { Passed (setup_rules setup) × (length string.now ≡ points setup) × T (all displacement_ok string.now) }
    ensures { result ≡ frame_of (at string.now setup.bridge_place) (at string.now setup.neck_place) }
{
    let bridge = setup.bridge_place as usize;
    let neck = setup.neck_place as usize;
    frame(string[bridge - 1], string[neck - 1])
}
