// 01, 'Energy', and 02, item 5: the work of a step's forces, and of a bend.
ghost use Rattle.std.specs.Prelude.{◌≡◌, [], ◌∷◌, T, pos, ◌+ℤ◌, ◌-ℤ◌, ◌*ℤ◌, length};
ghost use Rattle.integers.specs.Machine.{Within};
ghost use Rattle.model.specs.Differences.{at, minus, E};
ghost use Rattle.model.specs.Ranges.{displacement_ok, force_ok};
ghost use Rattle.model.specs.Setup.{points, setup_rules};
ghost use Rattle.model.specs.Wide.{value};
ghost use Rattle.promises.specs.Promises.{Passed};
ghost use Rattle.laws.specs.EnergySizes.{Strings};

use energy_sums::rises::rises;
use model::{Forces, Setup, Wide};
use wide::product::product;

// The work of a force over a move, between two displacements or heights.
fn work_of(force: i32, new: i32, older: i32) -> i64
    requires { Within (force ∷ new ∷ older ∷ []) (1073741824 ∷ 1048576 ∷ 1048576 ∷ []) }
    ensures { result ≡ pos 2 *ℤ force *ℤ (new -ℤ older) }
{
    2 * (force as i64) * ((new - older) as i64)
}

// The work of a step from the older string to the new one, and from the older finger height to the new one.
pub fn step_work(
    setup: Setup,
    forces: Forces,
    new: &[i32],
    older: &[i32],
    height: i32,
    before: i32,
) -> i64
    requires { Passed (setup_rules setup) × Strings new.now older.now × (length new.now ≡ points setup)
        × T (force_ok forces.pluck) × T (force_ok forces.finger) × T (displacement_ok height) × T (displacement_ok before) }
    ensures { result ≡ pos 2 *ℤ forces.pluck *ℤ at (minus new.now older.now) setup.pluck_place +ℤ pos 2 *ℤ forces.finger *ℤ (height -ℤ before) }
{
    let place = setup.pluck_place as usize;
    let pluck = work_of(forces.pluck, new[place - 1], older[place - 1]);
    let finger = work_of(forces.finger, height, before);
    pluck + finger
}

// 2·(L' − L)·E(u, v), of any two tensions: up to 2^82.
pub fn bend_work(old: u32, tension: u32, newer: &[i32], older: &[i32]) -> Wide
    requires { Strings newer.now older.now }
    ensures { value result ≡ pos 2 *ℤ (pos tension -ℤ pos old) *ℤ E newer.now older.now }
{
    let rising = rises(newer, older);
    product(2 * ((tension as i64) - (old as i64)), rising)
}
