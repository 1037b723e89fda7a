// One step, for C.
ghost use Rattle.std.specs.Prelude.{◌≡◌};
ghost use Rattle.model.specs.Step as Steps;
ghost use Rattle.capi.specs.Calls.{step_call};
ghost use Rattle.rows.specs.Rows.{setup_of};

use rows::setup_row::SetupRow;
use rows::step_row::{StepRow, step_row};
use voice::{Finger, Forces, Lent, Neck, Setup, step};

// `voice::step`.
#[unsafe(no_mangle)]
pub extern "C" fn sv_step(
    setup: SetupRow,
    heights: &[i32],
    stiffness: &[u16],
    first: &mut [i32],
    second: &mut [i32],
    contact: &mut [i32],
    turn: u32,
    finger: Finger,
    pluck: i32,
    finger_force: i32,
) -> StepRow
    ensures { record { row = result; first = first.new; second = second.new; contact = contact.new } ≡ step_call (Steps.step (setup_of setup)
        (record { heights = heights.now; stiffness = stiffness.now })
        (record { first = first.old; second = second.old; contact = contact.old; turn = turn; finger = finger })
        (record { pluck = pluck; finger = finger_force })) }
{
    let neck = Neck { heights, stiffness };
    let mut lent = Lent {
        first,
        second,
        contact,
        turn,
        finger,
    };
    let forces = Forces {
        pluck,
        finger: finger_force,
    };
    let answer = step(Setup::from(setup), neck, &mut lent, forces);
    step_row(answer, &lent)
}
