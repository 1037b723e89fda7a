// 02, item 3: the workings of the finger's two-by-two system, each of which may drop the contact of the finger, that of its point, or both.
ghost use Rattle.laws.specs.LastMoves.{left_of_pair, last_pair};
ghost use Rattle.finger_motion.specs.Pair.{PairRanges, Pair, PairAt};

use crate::system::{Moves, finger_moves};
use model::{Finger, Setup};
use motion::equation::{point_factor, point_side};
use motion::pulling::gradient_left;

// What the workings of a step share: c of the point without its contact, the contact variable of the point, the finger after clearing, and its force.
#[derive(Clone, Copy)]
pub struct PairInput {
    pub side: i64,
    pub contact: i32,
    pub finger: Finger,
    pub force: i32,
}

// The gradients of the point and of the finger.
#[derive(Clone, Copy)]
pub struct Gradients {
    pub own: i64,
    pub finger: i64,
}

// What a working comes to: the gradients after the drop, and the moves.
#[derive(Clone, Copy)]
pub struct WorkedPair {
    pub left: Gradients,
    pub moves: Moves,
}

// A working with these gradients.
fn work_pair(setup: Setup, input: PairInput, gradients: Gradients) -> WorkedPair
    requires { PairRanges setup input.side input.contact input.finger input.force × Pair (gradients.own, gradients.finger) }
    ensures { PairAt setup input.side input.contact input.finger input.force (gradients.own, gradients.finger) result }
{
    let contact = input.contact;
    let held = input.finger.contact;
    let factor = point_factor(setup, gradients.own);
    let whole = point_side(input.side, gradients.own, contact);
    let moves = finger_moves(
        setup,
        input.finger,
        factor,
        whole,
        gradients.finger,
        input.force,
    );
    let change = gradients.own * moves.delta;
    let finger_change = gradients.finger * (moves.finger_delta - moves.delta);
    let own_left = gradient_left(gradients.own, contact, change);
    let finger_left = gradient_left(gradients.finger, held, finger_change);
    let left = Gradients {
        own: own_left,
        finger: finger_left,
    };
    WorkedPair { left, moves }
}

// The working after `worked`, which was with these gradients: with what it leaves of them, and so itself where it leaves both.
fn work_again(
    setup: Setup,
    input: PairInput,
    gradients: Gradients,
    worked: WorkedPair,
) -> WorkedPair
    requires { PairRanges setup input.side input.contact input.finger input.force × Pair (gradients.own, gradients.finger)
        × PairAt setup input.side input.contact input.finger input.force (gradients.own, gradients.finger) worked }
    ensures { PairAt setup input.side input.contact input.finger input.force
        (left_of_pair setup input.side input.contact input.finger input.force (gradients.own, gradients.finger)) result }
{
    let left = worked.left;
    if left.own + left.finger == gradients.own + gradients.finger {
        worked
    } else {
        work_pair(setup, input, left)
    }
}

// The last working: the third, and so any later one too.
pub fn settle_pair(setup: Setup, input: PairInput, gradients: Gradients) -> WorkedPair
    requires { PairRanges setup input.side input.contact input.finger input.force × Pair (gradients.own, gradients.finger) }
    ensures { PairAt setup input.side input.contact input.finger input.force
        (last_pair setup input.side input.contact input.finger input.force (gradients.own, gradients.finger)) result }
{
    let first = work_pair(setup, input, gradients);
    let second = work_again(setup, input, gradients, first);
    work_again(setup, input, first.left, second)
}
