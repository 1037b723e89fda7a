// 01, 'One step': a step of a voice that is ready, with rows 1 to 5, 6, 7 and 11 passed. Everything is worked out and judged before anything is written.
ghost use Rattle.std.specs.Prelude.{◌≡◌};
ghost use Rattle.laws.specs.Advance as Steps;
ghost use Rattle.laws.specs.Advance.{advanced_result};
ghost use Rattle.laws.specs.Ready.{Ready};
ghost use Rattle.model.specs.Lending.{the_neck};
ghost use Rattle.model.specs.Refusal.{answer_of};

use crate::outcome::outcome;
use crate::work_out::work_out;
use examination::rows::forces_ok;
use model::bounds::MOST_POINTS;
use model::refusal::Refusal;
use model::{Finger, Forces, Neck, Setup, State, Stepped};

// Steps from the newer and the older string: writes the new string over the older one and the contact variables, and answers with the turn that
// it is given; or answers 12, 13 or 14 and leaves them.
pub fn advance(
    setup: Setup,
    neck: Neck,
    newer: &[i32],
    older: &mut [i32],
    contact: &mut [i32],
    turn: u32,
    finger: Finger,
    forces: Forces,
) -> Result<Stepped, Refusal>
    requires { Ready setup (the_neck neck) (record { newer = newer.now; older = older.old; contact = contact.old; finger = finger }) }
    ensures { advanced_result (answer_of result) older.new contact.new ≡ Steps.advance turn setup (the_neck neck.entry)
        (record { newer = newer.now; older = older.old; contact = contact.old; finger = finger })
        (record { pluck = forces.pluck; finger = forces.finger }) }
{
    if !forces_ok(forces) {
        return Err(Refusal::Force);
    }
    let state = State {
        newer,
        older,
        contact,
        finger,
    };
    let points = newer.len();
    let mut string = [0i32; MOST_POINTS];
    let mut contacts = [0i32; MOST_POINTS];
    let next = work_out(setup, neck, state, forces, &mut string, &mut contacts);
    outcome(
        setup,
        next,
        &string[..points],
        &contacts[..points],
        older,
        contact,
        turn,
        finger.newer,
    )
}
