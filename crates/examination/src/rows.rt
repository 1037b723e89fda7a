// Rows of a step's table of refusals, 11 to 14: each function answers whether its row is passed.
ghost use Rattle.std.specs.Prelude.{◌≡◌, [], ◌∷◌};
ghost use Rattle.model.specs.Lending.{the_state};
ghost use Rattle.model.specs.Ranges.{all, displacement_ok, contact_ok, force_ok};
ghost use Rattle.model.specs.Step.{state_ok};

use model::{Forces, State};
use ranges::numbers::{ContactVariable, Displacement, Force, Kind, all_hold};

// 11: the displacements, finger heights and contact variables that are passed in.
pub fn state_ok(state: State) -> bool
    ensures { result ≡ state_ok (the_state state.entry) }
{
    let height = Displacement::holds(state.finger.newer as i64);
    let older_height = Displacement::holds(state.finger.older as i64);
    let newer_string = all_hold::<Displacement>(state.newer);
    let older_string = all_hold::<Displacement>(state.older);
    let finger_contact = ContactVariable::holds(state.finger.contact as i64);
    let contacts = all_hold::<ContactVariable>(state.contact);
    (height & (older_height & (newer_string & older_string))) & (finger_contact & contacts)
}

// 12: the pluck force and the finger force.
pub fn forces_ok(forces: Forces) -> bool
    ensures { result ≡ all force_ok (forces.pluck ∷ forces.finger ∷ []) }
{
    let pluck = Force::holds(forces.pluck as i64);
    let finger = Force::holds(forces.finger as i64);
    pluck & finger
}

// 13: the finger's new height, and the new string.
pub fn new_string_ok(height: i64, string: &[i32]) -> bool
    ensures { result ≡ all displacement_ok (height ∷ string.now) }
{
    Displacement::holds(height) & all_hold::<Displacement>(string)
}

// 14: the finger's new contact variable, and the new contact variables.
pub fn new_contact_variables_ok(finger: i64, contact: &[i32]) -> bool
    ensures { result ≡ all contact_ok (finger ∷ contact.now) }
{
    ContactVariable::holds(finger) & all_hold::<ContactVariable>(contact)
}
