// 01, 'One step': what a step leads to, worked out into local arrays before it is judged.
ghost use Rattle.std.specs.Prelude.{◌≡◌, length, take};
ghost use Rattle.model.specs.Lending.{the_neck, the_state};
ghost use Rattle.model.specs.Setup.{points};
ghost use Rattle.model.specs.Step.{call_rules, worked_step, next_state};
ghost use Rattle.promises.specs.Promises.{Passed};

use contact::gradients::point_gradients;
use finger_motion::next::NewFinger;
use finger_motion::point::settle_finger;
use model::bounds::MOST_POINTS;
use model::{Forces, Neck, Setup, State};
use motion::next::next_string;
use motion::points::settle_points;
use motion::weighted::weighted;

// The new string and the new contact variables, at the front of `string` and `contacts`, and the new finger. On the way `string`
// holds the moves.
pub fn work_out(
    setup: Setup,
    neck: Neck,
    state: State,
    forces: Forces,
    string: &mut [i32; MOST_POINTS],
    contacts: &mut [i32; MOST_POINTS],
) -> NewFinger
    requires { Passed (call_rules setup (the_neck neck) (the_state state) (record { pluck = forces.pluck; finger = forces.finger }))
        × (length string.old ≡ 127) × (length contacts.old ≡ 127) }
    ensures { (length string.new ≡ 127) × (length contacts.new ≡ 127) × (record {
      newer = take (points setup) string.new;
      older = state.entry.newer.now;
      contact = take (points setup) contacts.new;
      finger = record { newer = result.height; older = state.entry.finger.newer; contact = result.contact };
    } ≡ next_state (worked_step setup (the_neck neck.entry) (the_state state.entry) (record { pluck = forces.pluck; finger = forces.finger }))) }
{
    let heights = neck.heights;
    let gradients = point_gradients(neck, state.newer);
    let weights = weighted(setup, state);
    settle_points(
        setup,
        heights,
        &gradients,
        &weights,
        state,
        forces.pluck,
        string,
        contacts,
    );
    let pair = settle_finger(setup, heights, &gradients, &weights, state, forces);
    let place = setup.finger.place as usize;
    string[place - 1] = pair.delta;
    contacts[place - 1] = pair.contact;
    next_string(state.older, string);
    NewFinger {
        height: pair.height,
        contact: pair.finger_contact,
    }
}
