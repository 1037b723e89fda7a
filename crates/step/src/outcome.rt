// 01, 'One step': the outcome of a step that is worked out. 13 and 14 are judged, and then what it leads to is written.
ghost use Rattle.std.specs.Prelude.{◌≡◌, length};
ghost use Rattle.model.specs.Refusal.{answer_of};
ghost use Rattle.model.specs.Setup.{points, setup_rules};
ghost use Rattle.promises.specs.Promises.{Passed};
ghost use Rattle.laws.specs.Advance.{advanced_result};
ghost use Rattle.step.specs.Outcome as Outcomes;

use examination::rows::{new_contact_variables_ok, new_string_ok};
use finger_motion::next::{NewFinger, next_finger};
use model::refusal::Refusal;
use model::{Setup, Stepped};
use samples::frame::pickup_frame;

// Writes the new string over the older one, and the new contact variables, and answers with the turn that it is given; or answers 13 or 14
// and leaves them. `height` is the finger's newer height, which then is its older one. The older string of the state in the contract plays no part.
pub fn outcome(
    setup: Setup,
    next: NewFinger,
    string: &[i32],
    contacts: &[i32],
    older: &mut [i32],
    contact: &mut [i32],
    turn: u32,
    height: i32,
) -> Result<Stepped, Refusal>
    requires { Passed (setup_rules setup) × (length string.now ≡ points setup) × (length contacts.now ≡ points setup)
        × (length older.old ≡ points setup) × (length contact.old ≡ points setup) }
    ensures { advanced_result (answer_of result) older.new contact.new ≡ Outcomes.outcome turn setup (record {
      newer = string.now;
      older = older.old;
      contact = contacts.now;
      finger = record { newer = next.height; older = height; contact = next.contact };
    }) older.old contact.old }
{
    if !new_string_ok(next.height, string) {
        return Err(Refusal::NewDisplacement);
    }
    if !new_contact_variables_ok(next.contact, contacts) {
        return Err(Refusal::NewContact);
    }
    older.copy_from_slice(string);
    contact.copy_from_slice(contacts);
    let frame = pickup_frame(setup, older);
    let finger = next_finger(height, next);
    Ok(Stepped {
        turn,
        finger,
        frame,
    })
}
