// 01, 'Playing a block': the steps of a block whose arguments are examined.
ghost use Rattle.std.specs.Prelude.{◌≡◌, ◌≤◌, length};
ghost use Rattle.laws.specs.Ready.{Ready};
ghost use Rattle.model.specs.Answers.{block_result};
ghost use Rattle.model.specs.Block as Blocks;
ghost use Rattle.model.specs.Block.{pairs};
ghost use Rattle.model.specs.Lending.{the_neck, the_lent, SameBuffers};
ghost use Rattle.model.specs.State.{state_of};

use crate::frames::{forces_at, write_frame};
use model::{Lent, Neck, Played, Setup};
use step::turn::step_ready;

// Steps a voice that is ready, until the forces end or a step is refused. `count` is raised with each accepted step.
pub fn play(
    setup: Setup,
    neck: Neck,
    lent: &mut Lent,
    forces: &[i32],
    samples: &mut [f32],
) -> Played
    requires { Ready setup (the_neck neck) (state_of (the_lent lent.old)) × (length forces.now ≤ length samples.old) }
    ensures same { SameBuffers lent.old lent.new }
    ensures played { block_result result (the_lent lent.new) samples.new
        ≡ Blocks.play setup (the_neck neck.entry) (the_lent lent.old) (pairs forces.now) samples.old }
{
    let steps = forces.len() / 2;
    let mut count = 0;
    while count < steps {
        match step_ready(setup, neck, lent, forces_at(forces, count)) {
            Ok(frame) => {
                write_frame(frame, samples, count);
                count += 1;
            }
            Err(refusal) => {
                return Played {
                    count,
                    stopped: Some(refusal),
                };
            }
        }
    }
    Played {
        count,
        stopped: None,
    }
}
