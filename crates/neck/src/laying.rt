// 01, 'Laying the neck': the writing of a neck whose plan is examined, each point from the board or from a fret.
ghost use Rattle.std.specs.Prelude.{◌≡◌, ◌≤◌, length};
ghost use Rattle.model.specs.Lending.{the_plan};
ghost use Rattle.model.specs.Neck.{fret_at, laid};
ghost use Rattle.model.specs.Setup.{N, points};

use model::{Plan, Setup};

// A fret stands at the place.
fn fret_at(frets: &[u32], place: u32) -> bool
    ensures { result ≡ fret_at frets.now place }
{
    frets.contains(&place)
}

// Writes the neck: a fret's point takes the tip height and the fret stiffness, every other point the board's.
pub fn write_neck(setup: Setup, plan: Plan, heights: &mut [i32], stiffness: &mut [u16])
    requires { (2 ≤ N setup)
        × (length plan.board.now ≡ points setup) × (length heights.old ≡ points setup) × (length stiffness.old ≡ points setup) }
    ensures { record { heights = heights.new; stiffness = stiffness.new } ≡ laid setup (the_plan plan.entry) }
{
    let points = (setup.segments - 1) as usize;
    for i in 0..points {
        if fret_at(plan.frets, i as u32 + 1) {
            heights[i] = plan.tip;
            stiffness[i] = plan.fret_stiffness;
        } else {
            heights[i] = plan.board[i];
            stiffness[i] = plan.board_stiffness;
        }
    }
}
