// A step's answer for C.
ghost use Rattle.std.specs.Prelude.{◌≡◌};
ghost use Rattle.model.specs.Lending.{the_lent};
ghost use Rattle.model.specs.Refusal.{answer_of};
ghost use Rattle.rows.specs.Rows.{step_row};

use model::refusal::Refusal;
use model::{Finger, Frame, Lent};
use samples::frame::frame;

// The refusal, turn, finger and frame.
#[repr(C)]
#[derive(Clone, Copy)]
pub struct StepRow {
    pub refusal: u32,
    pub turn: u32,
    pub finger: Finger,
    pub frame: Frame,
}

// The row of an answer, with turn and finger as they are after the call: after a refusal those that were passed in.
#[tactic(auto, unfolding(model::specs::Ranges::displacement_ok, model::specs::Ranges::inside))]
pub fn step_row(answer: Result<Frame, Refusal>, lent: &Lent) -> StepRow
    ensures { result ≡ step_row (record { answer = answer_of answer; lent = the_lent lent.now }) }
{
    let turn = lent.turn;
    let finger = lent.finger;
    match answer {
        Ok(made) => StepRow {
            refusal: 0,
            turn,
            finger,
            frame: made,
        },
        Err(refusal) => StepRow {
            refusal: refusal.number(),
            turn,
            finger,
            frame: frame(0, 0),
        },
    }
}
