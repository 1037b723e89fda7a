// 01, 'One step', and 02, item 3: the last moves and the new contact variables of all points, were there no finger, and where the pluck force acts.
ghost use Rattle.std.specs.Prelude.{◌≡◌, cond, eqb, pos, length, take};
ghost use Rattle.contact.specs.Contacts.{kept_contacts, gradients_in};
ghost use Rattle.laws.specs.LastMoves.{last_move, last_contact};
ghost use Rattle.model.specs.Differences.{places};
ghost use Rattle.model.specs.Setup.{e, points};
ghost use Rattle.motion.specs.Weighted as Weights;
ghost use Rattle.motion.specs.Weighted.{placed};
ghost use Rattle.motion.specs.MoveRanges.{PointRanges};

use crate::equation::free_side;
use crate::settled::settle_point;
use contact::clearing::kept_at;
use model::bounds::{MOST_PLACES, MOST_POINTS};
use model::{Setup, State};

// The pluck force at a place: it acts at e alone.
pub fn force_at(setup: Setup, pluck: i32, place: usize) -> i32
    ensures { result ≡ cond (eqb place (e setup)) pluck (pos 0) }
{
    if place == setup.pluck_place as usize {
        pluck
    } else {
        0
    }
}

// The last moves and the new contact variables of all points, were there no finger, at the front of `moves` and of `contacts`. `gradients`
// has those of the points at its front, `weights` is the weighted string.
pub fn settle_points(
    setup: Setup,
    heights: &[i32],
    gradients: &[u8; MOST_POINTS],
    weights: &[i64; MOST_PLACES],
    state: State,
    pluck: i32,
    moves: &mut [i32; MOST_POINTS],
    contacts: &mut [i32; MOST_POINTS],
)
    requires { PointRanges setup heights.now state.newer.now state.older.now state.contact.now (gradients_in (points setup) gradients.now) pluck
        × (weights.now ≡ placed (Weights.weighted setup state.newer.now state.older.now))
        × (length moves.old ≡ 127) × (length contacts.old ≡ 127) }
    ensures { (length moves.new ≡ 127) × (length contacts.new ≡ 127)
        × (take (points setup) moves.new ≡ places (points setup) (last_move setup state.entry.newer.now state.entry.older.now
        (kept_contacts heights.now state.entry.newer.now state.entry.contact.now) (gradients_in (points setup) gradients.now) pluck))
        × (take (points setup) contacts.new ≡ places (points setup) (last_contact setup state.entry.newer.now state.entry.older.now
        (kept_contacts heights.now state.entry.newer.now state.entry.contact.now) (gradients_in (points setup) gradients.now) pluck)) }
{
    for i in 0..state.newer.len() {
        let gradient = gradients[i];
        let kept = kept_at(heights, state, i);
        let force = force_at(setup, pluck, i + 1);
        let side = free_side(setup, weights, state, force, i);
        let point = settle_point(setup, side, gradient as i64, kept);
        moves[i] = point.delta;
        contacts[i] = point.contact;
    }
}
