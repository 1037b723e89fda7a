// 02, item 3: the last move of a point where no finger stands, and its new contact variable.
ghost use Rattle.std.specs.Prelude.{◌≡◌, [], ◌∷◌, pos, ◌≤ℤ◌};
ghost use Rattle.integers.specs.Machine.{Within};
ghost use Rattle.model.specs.Setup.{setup_rules};
ghost use Rattle.promises.specs.Promises.{Passed};
ghost use Rattle.laws.specs.LastMoves.{settled_move, settled_contact};
ghost use Rattle.motion.specs.MoveRanges.{point_sizes};

use crate::equation::point_move;
use model::Setup;

// A move, and the contact variable after it. Before 14 is judged it may be out of 01's range, but 32 bits hold it.
#[derive(Clone, Copy)]
pub struct Settled {
    pub delta: i32,
    pub contact: i32,
}

// Those of a point from its gradient, its contact variable after clearing, and c without the contact: where the contact pulls, old and new variable below 0,
// the move is worked out again without it, and the variable stays.
pub fn settle_point(setup: Setup, side: i64, gradient: i64, contact: i32) -> Settled
    requires { Passed (setup_rules setup) × Within (side ∷ gradient ∷ contact ∷ []) point_sizes × (pos 0 ≤ℤ gradient) }
    ensures { result ≡ record { delta = settled_move setup side contact gradient; contact = settled_contact setup side contact gradient } }
{
    let delta = point_move(setup, side, gradient, contact);
    let change = gradient * (delta as i64);
    if 2 * (contact as i64) < change {
        let again = point_move(setup, side, 0, contact);
        Settled {
            delta: again,
            contact,
        }
    } else {
        Settled {
            delta,
            contact: ((contact as i64) - change) as i32,
        }
    }
}
