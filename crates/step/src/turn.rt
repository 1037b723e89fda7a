// 01, 'One step': which of the two lent strings is newer. Turn 0 means that the first is, any other number the second.
ghost use Rattle.std.specs.Prelude.{◌≡◌};
ghost use Rattle.laws.specs.Ready.{Ready};
ghost use Rattle.model.specs.Lending.{the_neck, the_lent, SameBuffers};
ghost use Rattle.model.specs.Refusal.{answer_of};
ghost use Rattle.model.specs.State.{state_of};
ghost use Rattle.model.specs.Step as Steps;

use crate::advance::advance;
use model::refusal::Refusal;
use model::{Forces, Frame, Lent, Neck, Setup};

// A step of a voice that is ready, with rows 1 to 5, 6, 7 and 11 passed.
pub fn step_ready(
    setup: Setup,
    neck: Neck,
    lent: &mut Lent,
    forces: Forces,
) -> Result<Frame, Refusal>
    requires { Ready setup (the_neck neck) (state_of (the_lent lent.old)) }
    ensures same { SameBuffers lent.old lent.new }
    ensures stepped { record { answer = answer_of result; lent = the_lent lent.new } ≡ Steps.step setup (the_neck neck.entry) (the_lent lent.old)
        (record { pluck = forces.pluck; finger = forces.finger }) }
{
    let turn = lent.turn;
    let finger = lent.finger;
    let first = &mut *lent.first;
    let second = &mut *lent.second;
    let contact = &mut *lent.contact;
    let stepped = if turn == 0 {
        advance(setup, neck, first, second, contact, 1, finger, forces)?
    } else {
        advance(setup, neck, second, first, contact, 0, finger, forces)?
    };
    lent.turn = stepped.turn;
    lent.finger = stepped.finger;
    Ok(stepped.frame)
}
