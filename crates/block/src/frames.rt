// 01, 'Playing a block': where a step's forces stand among a block's, and its frame among a block's samples.
ghost use Rattle.std.specs.Prelude.{◌≡◌, ◌+◌, ◌*◌, ◌≤◌, ◌<◌, ◌/◌, length};
ghost use Rattle.laws.specs.Playing.{forces_at, with_frame};

use model::{Forces, Frame};

// The forces of the step that follows `count` steps, pluck first.
pub fn forces_at(forces: &[i32], count: usize) -> Forces
    requires { count < length forces.now / 2 }
    ensures { record { pluck = result.pluck; finger = result.finger } ≡ forces_at forces.now count }
{
    let at = 2 * count;
    Forces {
        pluck: forces[at],
        finger: forces[at + 1],
    }
}

// Writes the frame of the step that follows `count` steps over its two samples, bridge first.
pub fn write_frame(frame: Frame, samples: &mut [f32], count: usize)
    requires { 2 * count + 2 ≤ length samples.old }
    ensures { samples.new ≡ with_frame frame (2 * count) samples.old }
{
    let at = 2 * count;
    samples[at] = frame.bridge;
    samples[at + 1] = frame.neck;
}
