// 01, 'One step': a step, whose arguments are all examined, in the order of its table of refusals. `turn` puts the two strings in order, and `advance` makes the
// step: 12, `work_out`, and the `outcome` with 13 and 14.
#![tactic(auto)]

pub mod advance;
pub mod outcome;
pub mod turn;
pub mod work_out;

ghost use Rattle.std.specs.Prelude.{◌≡◌};
ghost use Rattle.model.specs.Lending.{the_neck, the_lent, SameBuffers};
ghost use Rattle.model.specs.Refusal.{answer_of};
ghost use Rattle.model.specs.Step as Steps;

use crate::turn::step_ready;
use examination::arguments::{examine_buffers, examine_state, in_order};
use model::refusal::Refusal;
use model::{Forces, Frame, Lent, Neck, Setup};

// Steps the voice: writes the new string over the older of the two string buffers, and the contact variables, turn and finger, and answers the frame;
// or answers the refusal and leaves all that is lent. Turn 0 means that the first string is newer, any other number the second.
pub fn step(setup: Setup, neck: Neck, lent: &mut Lent, forces: Forces) -> Result<Frame, Refusal>
    ensures same { SameBuffers lent.old lent.new }
    ensures stepped { record { answer = answer_of result; lent = the_lent lent.new } ≡ Steps.step setup (the_neck neck.entry) (the_lent lent.old)
        (record { pluck = forces.pluck; finger = forces.finger }) }
{
    let state = in_order(lent);
    examine_buffers(setup, neck, state)?;
    examine_state(neck.heights, state)?;
    step_ready(setup, neck, lent, forces)
}
