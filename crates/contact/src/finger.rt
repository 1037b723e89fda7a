// 01, 'One step', and 02, item 3: the finger's contact with the string before the moves, from the newer values.
ghost use Rattle.std.specs.Prelude.{◌≡◌, T, length};
ghost use Rattle.model.specs.Gradient as Gradient;
ghost use Rattle.model.specs.Ranges.{all, displacement_ok};
ghost use Rattle.model.specs.Setup.{K, points, setup_rules};
ghost use Rattle.model.specs.Step.{kept};
ghost use Rattle.promises.specs.Promises.{Passed};
ghost use Rattle.contact.specs.Contacts.{finger_depth};

use crate::clearing::contact_kept;
use crate::gradient::gradient;
use model::{Setup, State};

// A contact: its gradient, and what is kept of its variable.
#[derive(Clone, Copy)]
pub struct Contact {
    pub gradient: i64,
    pub variable: i32,
}

// The finger's, for its depth u(p) − w.
pub fn finger_contact(setup: Setup, state: State) -> Contact
    requires { Passed (setup_rules setup) × (length state.newer.now ≡ points setup)
        × T (all displacement_ok state.newer.now) × T (displacement_ok state.finger.newer) }
    ensures { result ≡ record {
      gradient = Gradient.gradient (K setup) (finger_depth setup state.entry.newer.now state.entry.finger);
      variable = kept (finger_depth setup state.entry.newer.now state.entry.finger) state.entry.finger.contact;
    } }
{
    let place = setup.finger.place as usize;
    let own = state.newer[place - 1];
    let height = state.finger.newer;
    let contact = state.finger.contact;
    let gradient = gradient(setup.finger.stiffness, own - height);
    let variable = contact_kept(own, height, contact);
    Contact { gradient, variable }
}
