// 01, 'One step': the finger's moves, by its two-by-two system at p.
ghost use Rattle.std.specs.Prelude.{◌≡◌, ◌^◌, T, pos, ◌<ℤ◌};
ghost use Rattle.integers.specs.Size.{◌within◌};
ghost use Rattle.model.specs.Ranges.{force_ok};
ghost use Rattle.model.specs.Setup.{setup_rules};
ghost use Rattle.model.specs.Step.{finger_system};
ghost use Rattle.promises.specs.Promises.{Passed};
ghost use Rattle.motion.specs.MoveRanges.{FingerRanges};
ghost use Rattle.finger_motion.specs.Moves.{moves_of};

use model::{Finger, Setup};
use rounding::system::System;

// δ at p and δw.
#[derive(Clone, Copy)]
pub struct Moves {
    pub delta: i64,
    pub finger_delta: i64,
}

// The finger's moves, where the point's equation is factor·δ = side without the finger. 73,217 is the largest A, 4096 + 4096 + 255².
pub fn finger_moves(
    setup: Setup,
    finger: Finger,
    factor: i64,
    side: i64,
    gradient: i64,
    force: i32,
) -> Moves
    requires { Passed (setup_rules setup) × FingerRanges finger
        × (pos 0 <ℤ factor) × (factor within 73217) × (side within 2 ^ 37)
        × (gradient within 255) × T (force_ok force) }
    ensures { result ≡ moves_of (finger_system setup finger factor side gradient force) }
{
    let mass = setup.finger.mass as i64;
    let square = gradient * gradient;
    let pull = 2 * gradient * (finger.contact as i64);
    let change = (finger.newer as i64) - (finger.older as i64);
    let system = System {
        matrix: [[factor + square, -square], [-square, mass + square]],
        right: [side - pull, 2 * mass * change + (force as i64) + pull],
    };
    let solution = system.solve();
    Moves {
        delta: solution.x,
        finger_delta: solution.y,
    }
}
