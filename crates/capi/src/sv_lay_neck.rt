// Laying the neck, for C.
ghost use Rattle.std.specs.Prelude.{◌≡◌};
ghost use Rattle.model.specs.Neck.{lay};
ghost use Rattle.capi.specs.Calls.{neck_call};
ghost use Rattle.rows.specs.Rows.{setup_of};

use rows::numbers::refusal_number;
use rows::setup_row::SetupRow;
use voice::{Plan, Setup, lay_neck};

// `voice::lay_neck`: the refusal, 0 where the neck is laid.
#[unsafe(no_mangle)]
pub extern "C" fn sv_lay_neck(
    setup: SetupRow,
    board: &[i32],
    board_stiffness: u16,
    frets: &[u32],
    tip: i32,
    fret_stiffness: u16,
    heights: &mut [i32],
    stiffness: &mut [u16],
) -> u32
    ensures { record { refusal = result; heights = heights.new; stiffness = stiffness.new } ≡ neck_call (lay (setup_of setup) (record {
      board = board.now;
      board_stiffness = board_stiffness;
      frets = frets.now;
      tip = tip;
      fret_stiffness = fret_stiffness;
    }) heights.old stiffness.old) }
{
    let plan = Plan {
        board,
        board_stiffness,
        frets,
        tip,
        fret_stiffness,
    };
    refusal_number(lay_neck(Setup::from(setup), plan, heights, stiffness))
}
