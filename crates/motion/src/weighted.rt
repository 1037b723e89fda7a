// The weighted string: the string terms of c in 01, 'One step', are D1 of this one string, with 0 at both ends.
ghost use Rattle.std.specs.Prelude.{◌≡◌, T, ◌≤◌, pos, ◌+ℤ◌, ◌-ℤ◌, ◌*ℤ◌};
ghost use Rattle.integers.specs.Size.{◌within◌};
ghost use Rattle.model.specs.Ranges.{displacement_ok};
ghost use Rattle.model.specs.Setup.{setup_rules};
ghost use Rattle.promises.specs.Promises.{Passed};
ghost use Rattle.motion.specs.Weighted;
ghost use Rattle.motion.specs.Weighted.{placed, StringRanges};

use model::bounds::{DISPLACEMENT, MOST_PLACES};
use model::{Setup, State};

// What is added to a displacement so that it is not negative, and to the sum of two.
const RAISE: u32 = DISPLACEMENT.largest as u32;

const RAISE_OF_TWO: u32 = 2 * RAISE;

const RAISE_WIDE: i64 = RAISE as i64;

// factor·(x + low), where x is not below −low. The product is of two numbers of 32 bits that are not negative, for which every x86-64 processor has a vector
// instruction; for signed numbers, or numbers of 64 bits, not every one has.
fn raised_product(factor: u32, x: i32, low: u32) -> i64
    requires { (factor ≤ 8192) × (x within low) × (low ≤ 2097152) }
    ensures { result ≡ pos factor *ℤ (x +ℤ pos low) }
{
    let raised = (x + (low as i32)) as u32;
    ((factor as u64) * (raised as u64)) as i64
}

// The weighted string at a point: L·u − M·D1u + S·(u − v), from u there and at both neighbours and v there.
fn weigh(setup: Setup, left: i32, own: i32, right: i32, older: i32) -> i64
    requires { Passed (setup_rules setup) × T (displacement_ok left) × T (displacement_ok own) × T (displacement_ok right) × T (displacement_ok older) }
    ensures { result ≡ pos setup.tension *ℤ own -ℤ pos setup.stiffness *ℤ (left -ℤ pos 2 *ℤ own +ℤ right) +ℤ pos setup.viscous *ℤ (own -ℤ older) }
{
    let l = setup.tension;
    let m = setup.stiffness;
    let s = setup.viscous;
    let at_own = raised_product(l + 2 * m + s, own, RAISE);
    let at_sides = raised_product(m, left + right, RAISE_OF_TWO);
    let at_older = raised_product(s, older, RAISE);
    at_own - at_sides - at_older - RAISE_WIDE * (l as i64)
}

// The weighted string, by place.
pub fn weighted(setup: Setup, state: State) -> [i64; MOST_PLACES]
    requires { StringRanges setup state.newer.now state.older.now }
    ensures { result ≡ placed (Weighted.weighted setup state.entry.newer.now state.entry.older.now) }
{
    let newer = state.newer;
    let older = state.older;
    let last = newer.len() - 1;
    let mut out = [0i64; MOST_PLACES];
    let mut left = 0i32;
    for i in 0..last {
        let own = newer[i];
        out[i + 1] = weigh(setup, left, own, newer[i + 1], older[i]);
        left = own;
    }
    out[last + 1] = weigh(setup, left, newer[last], 0, older[last]);
    out
}
