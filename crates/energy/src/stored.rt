// 01, 'Energy': the stored energy of a state.
ghost use Rattle.std.specs.Prelude.{◌≡◌, [], ◌∷◌, pos};
ghost use Rattle.integers.specs.Machine.{Within};
ghost use Rattle.model.specs.Energy.{stored_energy};
ghost use Rattle.model.specs.Lending.{the_state};
ghost use Rattle.model.specs.Setup.{setup_rules};
ghost use Rattle.model.specs.Wide.{value};
ghost use Rattle.promises.specs.Promises.{Passed};
ghost use Rattle.laws.specs.EnergySizes.{Held};
ghost use Rattle.energy.specs.Parts.{string_part, string_sizes, rest_part, rest_sizes};

use energy_sums::bends::bends;
use energy_sums::changes::changes;
use energy_sums::contacts::contact_sum;
use energy_sums::rises::{change_rises, rises};
use model::{Finger, Setup, State, Wide};
use wide::sums::four;

// The string's part: 8192·Σa² + 2·L·E(u, v) + 2·M·Σ D1u·D1v − S·E(a, a), from these four sums.
fn string_energy(setup: Setup, change: i64, tension: i64, stiffness: i64, viscous: i64) -> Wide
    requires { Passed (setup_rules setup) × Within (change ∷ tension ∷ stiffness ∷ viscous ∷ []) string_sizes }
    ensures { value result ≡ string_part setup change tension stiffness viscous }
{
    let l = setup.tension as i64;
    let m = setup.stiffness as i64;
    let s = setup.viscous as i64;
    four(
        8192 * change,
        2 * l * tension,
        2 * m * stiffness,
        0 - s * viscous,
    )
}

// The contact variables' and the finger's part: 2·Σψ² + 2·m·(w − w')² + 2·φ². The middle term reaches 2^63, and is added by halves.
fn rest_energy(mass: u32, contacts: i64, finger: Finger) -> Wide
    requires { Within (pos mass ∷ contacts ∷ finger.newer ∷ finger.older ∷ finger.contact ∷ []) rest_sizes }
    ensures { value result ≡ rest_part mass contacts finger }
{
    let newer = finger.newer;
    let older = finger.older;
    let contact = finger.contact;
    let change = (newer - older) as i64;
    let half = (mass as i64) * (change * change);
    let own = contact as i64;
    four(2 * contacts, half, half, 2 * (own * own))
}

// The whole of it.
pub fn stored_energy(setup: Setup, state: State) -> Wide
    requires { Held setup (the_state state) }
    ensures { value result ≡ stored_energy setup (the_state state.entry) }
{
    let change = changes(state.newer, state.older);
    let tension = rises(state.newer, state.older);
    let stiffness = bends(state.newer, state.older);
    let viscous = change_rises(state.newer, state.older);
    let contacts = contact_sum(state.contact);
    let string = string_energy(setup, change, tension, stiffness, viscous);
    let rest = rest_energy(setup.finger.mass, contacts, state.finger);
    string + rest
}
