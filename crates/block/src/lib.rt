// 01, 'Playing a block': a block, whose arguments are all examined, in the order of its table of refusals. `play` makes the steps of what has passed it, and
// `frames` says where a step's forces and its frame stand.
#![tactic(auto)]

pub mod frames;
pub mod play;

ghost use Rattle.std.specs.Prelude.{◌≡◌};
ghost use Rattle.model.specs.Answers.{block_result};
ghost use Rattle.model.specs.Block.{counts_wrong, block_rules, block};
ghost use Rattle.model.specs.Lending.{the_neck, the_lent, SameBuffers};
ghost use Rattle.model.specs.Refusal.{first_of, refusal_of};

use crate::play::play;
use examination::arguments::{examine_buffers, examine_state, in_order};
use model::refusal::Refusal;
use model::{Lent, Neck, Played, Setup};

// 15: an odd number of forces, or fewer samples than forces.
fn counts_wrong(forces: usize, samples: usize) -> bool
    ensures { result ≡ counts_wrong forces samples }
{
    (forces % 2 == 1) | (samples < forces)
}

// The refusal of a block, if it has one.
fn examine_block(
    setup: Setup,
    neck: Neck,
    lent: &Lent,
    forces: &[i32],
    samples: &[f32],
) -> Result<(), Refusal>
    ensures { refusal_of result ≡ first_of (block_rules setup (the_neck neck.entry) (the_lent lent.now) forces.now samples.now) }
{
    let state = in_order(lent);
    examine_buffers(setup, neck, state)?;
    if counts_wrong(forces.len(), samples.len()) {
        return Err(Refusal::ForceCount);
    }
    examine_state(neck.heights, state)
}

// Plays a block: makes steps until the forces, pluck and finger in turn, end or a step is refused, and writes each accepted step's frame, bridge
// first. The samples past the last frame made keep their contents. Answers the number of steps made, and the refusal that stopped it, if one did.
pub fn play_block(
    setup: Setup,
    neck: Neck,
    lent: &mut Lent,
    forces: &[i32],
    samples: &mut [f32],
) -> Played
    ensures same { SameBuffers lent.old lent.new }
    ensures played { block_result result (the_lent lent.new) samples.new ≡ block setup (the_neck neck.entry) (the_lent lent.old) forces.now samples.old }
{
    if let Err(refusal) = examine_block(setup, neck, lent, forces, samples) {
        return Played {
            count: 0,
            stopped: Some(refusal),
        };
    }
    play(setup, neck, lent, forces, samples)
}
