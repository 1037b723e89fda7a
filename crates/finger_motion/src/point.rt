// 01, 'One step', and 02, item 3: the last moves of the finger and of its point, and what they lead to.
ghost use Rattle.std.specs.Prelude.{◌≡◌, [], ◌∷◌, T, ◌+ℤ◌, ◌-ℤ◌, ◌*ℤ◌};
ghost use Rattle.integers.specs.Machine.{Within};
ghost use Rattle.integers.specs.Size.{◌within◌};
ghost use Rattle.contact.specs.Contacts.{kept_contacts, gradients_in, finger_depth, kept_finger};
ghost use Rattle.laws.specs.MoveSizes.{change_size};
ghost use Rattle.model.specs.Gradient.{gradient};
ghost use Rattle.model.specs.Ranges.{force_ok};
ghost use Rattle.model.specs.Setup.{K, points};
ghost use Rattle.motion.specs.Weighted as Weights;
ghost use Rattle.motion.specs.Weighted.{placed};
ghost use Rattle.motion.specs.MoveRanges.{PointRanges, FingerRanges, worked_sizes};
ghost use Rattle.finger_motion.specs.FingerPoint.{at_finger};

use crate::next::new_finger;
use crate::pair::{Gradients, PairInput, WorkedPair, settle_pair};
use contact::clearing::kept_at;
use contact::finger::finger_contact;
use model::bounds::{MOST_PLACES, MOST_POINTS};
use model::{Finger, Forces, Setup, State};
use motion::equation::free_side;
use motion::points::force_at;

// The move of the point at p and its new contact variable, and the finger's new height and contact variable, before they are judged.
#[derive(Clone, Copy)]
pub struct FingerPoint {
    pub delta: i32,
    pub contact: i32,
    pub height: i64,
    pub finger_contact: i64,
}

// Those that a working leads to. `contact` is the contact variable of the point, `finger` the finger after clearing.
fn next_at_finger(contact: i32, finger: Finger, worked: WorkedPair) -> FingerPoint
    requires { Within (contact ∷ worked.left.own ∷ worked.left.finger ∷ worked.moves.delta ∷ worked.moves.finger_delta ∷ []) worked_sizes
        × ((worked.left.own *ℤ worked.moves.delta) within change_size) }
    ensures { result ≡ record {
      delta = worked.moves.delta;
      contact = contact -ℤ worked.left.own *ℤ worked.moves.delta;
      height = finger.older +ℤ worked.moves.finger_delta;
      finger_contact = finger.contact +ℤ worked.left.finger *ℤ (worked.moves.delta -ℤ worked.moves.finger_delta);
    } }
{
    let delta = worked.moves.delta;
    let next = new_finger(finger, worked.left.finger, worked.moves);
    FingerPoint {
        delta: delta as i32,
        contact: ((contact as i64) - worked.left.own * delta) as i32,
        height: next.height,
        finger_contact: next.contact,
    }
}

// Those of a step. `gradients` has those of the points at its front, `weights` is the weighted string.
pub fn settle_finger(
    setup: Setup,
    heights: &[i32],
    gradients: &[u8; MOST_POINTS],
    weights: &[i64; MOST_PLACES],
    state: State,
    forces: Forces,
) -> FingerPoint
    requires { PointRanges setup heights.now state.newer.now state.older.now state.contact.now (gradients_in (points setup) gradients.now) forces.pluck
        × (weights.now ≡ placed (Weights.weighted setup state.newer.now state.older.now))
        × FingerRanges state.finger × T (force_ok forces.finger) }
    ensures { result ≡ at_finger setup
        (record {
          newer = state.entry.newer.now;
          older = state.entry.older.now;
          contact = kept_contacts heights.now state.entry.newer.now state.entry.contact.now;
          finger = kept_finger setup state.entry.newer.now state.entry.finger;
        })
        (record { points = gradients_in (points setup) gradients.now; finger = gradient (K setup) (finger_depth setup state.entry.newer.now state.entry.finger) })
        (record { pluck = forces.pluck; finger = forces.finger }) }
{
    let place = setup.finger.place as usize;
    let own = gradients[place - 1];
    let variable = kept_at(heights, state, place - 1);
    let held = finger_contact(setup, state);
    let pluck_at = force_at(setup, forces.pluck, place);
    let side = free_side(setup, weights, state, pluck_at, place - 1);
    let kept = Finger {
        contact: held.variable,
        ..state.finger
    };
    let input = PairInput {
        side,
        contact: variable,
        finger: kept,
        force: forces.finger,
    };
    let both = Gradients {
        own: own as i64,
        finger: held.gradient,
    };
    let pair = settle_pair(setup, input, both);
    next_at_finger(variable, kept, pair)
}
