// A block of steps, for C.
ghost use Rattle.std.specs.Prelude.{◌≡◌};
ghost use Rattle.model.specs.Block.{block};
ghost use Rattle.capi.specs.Calls.{block_call};
ghost use Rattle.rows.specs.Rows.{setup_of};

use rows::block_row::{BlockRow, block_row};
use rows::setup_row::SetupRow;
use voice::{Finger, Lent, Neck, Setup, play_block};

// `voice::play_block`.
#[unsafe(no_mangle)]
pub extern "C" fn sv_play_block(
    setup: SetupRow,
    heights: &[i32],
    stiffness: &[u16],
    first: &mut [i32],
    second: &mut [i32],
    contact: &mut [i32],
    turn: u32,
    finger: Finger,
    forces: &[i32],
    samples: &mut [f32],
) -> BlockRow
    ensures { record { row = result; first = first.new; second = second.new; contact = contact.new; samples = samples.new } ≡ block_call (block (setup_of setup)
        (record { heights = heights.now; stiffness = stiffness.now })
        (record { first = first.old; second = second.old; contact = contact.old; turn = turn; finger = finger })
        forces.now samples.old) }
{
    let neck = Neck { heights, stiffness };
    let mut lent = Lent {
        first,
        second,
        contact,
        turn,
        finger,
    };
    let played = play_block(Setup::from(setup), neck, &mut lent, forces, samples);
    block_row(played, &lent)
}
