// 01, 'One step': the equation A·δ = c of a point, and its move where no finger stands. c is worked out once without the contact, and then with it for each
// gradient that the point may have.
ghost use Rattle.std.specs.Prelude.{◌≡◌, [], ◌∷◌, suc, ◌<◌, T, pos};
ghost use Rattle.integers.specs.Size.{◌within◌};
ghost use Rattle.integers.specs.Machine.{Within};
ghost use Rattle.model.specs.Ranges.{force_ok};
ghost use Rattle.model.specs.Rounding;
ghost use Rattle.model.specs.Setup.{points, setup_rules};
ghost use Rattle.model.specs.Step.{factor, right_side};
ghost use Rattle.promises.specs.Promises.{Passed};
ghost use Rattle.laws.specs.LastMoves.{with_contact};
ghost use Rattle.motion.specs.Weighted;
ghost use Rattle.motion.specs.Weighted.{placed, StringRanges};
ghost use Rattle.motion.specs.MoveRanges.{point_sizes};

use crate::differences::{d1, difference};
use model::bounds::{MOST_PLACES, POINT_MASS};
use model::{Setup, State};
use rounding::quotient::nearest;

// A, from the point's gradient.
pub fn point_factor(setup: Setup, gradient: i64) -> i64
    requires { Passed (setup_rules setup) × (gradient within 255) }
    ensures { result ≡ factor setup gradient }
{
    let plain = setup.plain;
    POINT_MASS + (plain as i64) + gradient * gradient
}

// What the change of a displacement is multiplied by.
const TWICE_POINT_MASS: i64 = 2 * POINT_MASS;

// c of the point at place i + 1 without its contact, from the pluck force there. `weighted` is that of both strings.
pub fn free_side(
    setup: Setup,
    weighted: &[i64; MOST_PLACES],
    state: State,
    force: i32,
    i: usize,
) -> i64
    requires { StringRanges setup state.newer.now state.older.now
        × (weighted.now ≡ placed (Weighted.weighted setup state.newer.now state.older.now))
        × T (force_ok force) × (i < points setup) }
    ensures { result ≡ right_side setup state.entry.newer.now state.entry.older.now (pos 0) (pos 0) force (suc i) }
{
    let terms = d1(weighted, i);
    let change = difference(state.newer, state.older, i);
    TWICE_POINT_MASS * change + terms + (force as i64)
}

// c with the contact: `side` is c without it.
pub fn point_side(side: i64, gradient: i64, contact: i32) -> i64
    requires { Within (side ∷ gradient ∷ contact ∷ []) point_sizes }
    ensures { result ≡ with_contact side contact gradient }
{
    side + 2 * gradient * (contact as i64)
}

// What both sides of a point's division are scaled by, 2^20, which leaves the quotient as it is. A compiler may have the processor divide by
// 32 bits where both sides fit, and by 64 where not; scaled, the divisor never fits, so that the choice does not go by the data.
const SCALE: i64 = 1048576;

// The move of a point where no finger stands: c / A, rounded, which 32 bits hold, since A is at least 4096. `side` is c without the contact.
pub fn point_move(setup: Setup, side: i64, gradient: i64, contact: i32) -> i32
    requires { Passed (setup_rules setup) × Within (side ∷ gradient ∷ contact ∷ []) point_sizes }
    ensures { result ≡ Rounding.nearest (with_contact side contact gradient) (factor setup gradient) }
{
    let factor = point_factor(setup, gradient);
    let whole = point_side(side, gradient, contact);
    nearest(SCALE * whole, SCALE * factor) as i32
}
