// 01, 'Laying the neck': the height and the stiffness of each point, from the board and the frets. `frets` examines the frets and
// their tip, `laying` writes the neck.
#![tactic(auto)]

pub mod frets;
pub mod laying;

ghost use Rattle.std.specs.Prelude.{◌≡◌};
ghost use Rattle.model.specs.Answers.{neck_result};
ghost use Rattle.model.specs.Lending.{the_plan};
ghost use Rattle.model.specs.Neck.{lay, neck_rules};
ghost use Rattle.model.specs.Refusal.{first_of, refusal_of};

use crate::frets::{frets_wrong, tip_wrong};
use crate::laying::write_neck;
use model::refusal::Refusal;
use model::{Plan, Setup};
use ranges::lengths::lengths_ok;
use ranges::numbers::{Height, all_hold};
use setup::examine_setup;

// Lays the neck into the two lent buffers, heights and stiffness, or turns the call down and leaves them.
#[tactic(auto, unfolding(model::specs::Neck::lay))]
pub fn lay_neck(
    setup: Setup,
    plan: Plan,
    heights: &mut [i32],
    stiffness: &mut [u16],
) -> Result<(), Refusal>
    ensures { neck_result result heights.new stiffness.new ≡ lay setup (the_plan plan.entry) heights.old stiffness.old }
{
    examine(setup, plan, heights, stiffness)?;
    write_neck(setup, plan, heights, stiffness);
    Ok(())
}

// Its refusal, if it has one.
#[tactic(auto, using(crate::proofs::Table::rows), unfolding(model::specs::Neck::neck_rules))]
fn examine(setup: Setup, plan: Plan, heights: &[i32], stiffness: &[u16]) -> Result<(), Refusal>
    ensures { refusal_of result ≡ first_of (neck_rules setup (the_plan plan.entry) heights.now stiffness.now) }
{
    examine_setup(setup)?;
    if !lengths_ok(setup, &[plan.board.len(), heights.len(), stiffness.len()]) {
        return Err(Refusal::BufferLength);
    }
    if !all_hold::<Height>(plan.board) {
        return Err(Refusal::Height);
    }
    if frets_wrong(setup, plan.frets) {
        return Err(Refusal::Frets);
    }
    if tip_wrong(plan.board, plan.frets, plan.tip) {
        return Err(Refusal::Tip);
    }
    Ok(())
}
