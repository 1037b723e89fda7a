// 01, 'Energy', and 02, item 3: the loss of a step, by plain and by viscous loss, and with what was let go before it.
ghost use Rattle.std.specs.Prelude.{◌≡◌, [], ◌∷◌, ◌*◌, ◌^◌, pos, ◌+ℤ◌, ◌*ℤ◌, length};
ghost use Rattle.integers.specs.Machine.{Within};
ghost use Rattle.integers.specs.Size.{◌within◌};
ghost use Rattle.model.specs.Differences.{minus};
ghost use Rattle.model.specs.Setup.{points, setup_rules};
ghost use Rattle.model.specs.Wide.{value};
ghost use Rattle.promises.specs.Promises.{Passed};
ghost use Rattle.laws.specs.EnergySizes.{Strings, moving_loss};
ghost use Rattle.energy_sums.specs.Contacts.{Contacts};
ghost use Rattle.energy.specs.Parts.{released_energy};

use energy_sums::changes::changes;
use energy_sums::contacts::{cleared_sum, let_go};
use energy_sums::products::square;
use energy_sums::rises::change_rises;
use model::{Setup, State, Wide};
use wide::sums::added;

// The loss of the moves δ: 2·Z·Σδ² + S·E(δ, δ), from these two sums.
fn moving_loss(setup: Setup, change: i64, viscous: i64) -> Wide
    requires { Passed (setup_rules setup) × Within (change ∷ viscous ∷ []) (127 * 2 ^ 42 ∷ 2 ^ 51 ∷ []) }
    ensures { value result ≡ pos 2 *ℤ pos setup.plain *ℤ change +ℤ pos setup.viscous *ℤ viscous }
{
    let z = setup.plain as i64;
    let s = setup.viscous as i64;
    added(Wide::from(2 * z * change), s * viscous)
}

// The energy let go before a step: twice the square of each contact variable that is cleared, of the points and of the finger.
pub fn released_energy(setup: Setup, heights: &[i32], state: State) -> i64
    requires { Passed (setup_rules setup) × Contacts heights.now state.newer.now state.contact.now
        × (length state.newer.now ≡ points setup) × (state.finger.contact within 67108864) }
    ensures { result ≡ released_energy setup heights.now state.entry.newer.now state.entry.contact.now state.entry.finger }
{
    let place = setup.finger.place as usize;
    let own = state.newer[place - 1];
    let height = state.finger.newer;
    let variable = state.finger.contact;
    let points = cleared_sum(heights, state.newer, state.contact);
    let own_square = square(let_go(own, height, variable));
    2 * (points + own_square)
}

// The loss of a step from the older string to the new one, where so much was let go before it.
pub fn step_loss(setup: Setup, new: &[i32], older: &[i32], released: i64) -> Wide
    requires { Passed (setup_rules setup) × Strings new.now older.now × (released within 2 ^ 60) }
    ensures { value result ≡ moving_loss setup (minus new.now older.now) +ℤ released }
{
    let change = changes(new, older);
    let viscous = change_rises(new, older);
    let moving = moving_loss(setup, change, viscous);
    added(moving, released)
}
