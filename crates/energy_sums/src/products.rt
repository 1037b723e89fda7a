// Products of two numbers of 32 bits that are not negative, for which every x86-64 processor has a vector instruction; for signed numbers not every one has.
ghost use Rattle.std.specs.Prelude.{◌≡◌, ◌^◌, ◌≤◌, pos, nat_abs, ◌+ℤ◌, ◌-ℤ◌, ◌*ℤ◌};
ghost use Rattle.integers.specs.Size.{◌within◌};
ghost use Rattle.energy_sums.specs.Raised as Raised;
ghost use Rattle.energy_sums.specs.Raised.{raise};

use model::bounds::DISPLACEMENT;

// What is added to a rise or to a bend so that it is not negative.
pub const RAISE: i32 = 4 * DISPLACEMENT.largest;

const RAISED_SQUARE: i64 = (RAISE as i64) * (RAISE as i64);

// x + RAISE.
fn raised(x: i32) -> u32
    requires { x within 4194304 }
    ensures { pos result ≡ x +ℤ raise }
{
    (x + RAISE) as u32
}

// (x + RAISE)·(y + RAISE).
pub fn raised_product(x: i32, y: i32) -> i64
    requires { (x within 4194304) × (y within 4194304) }
    ensures { result ≡ Raised.raised x y }
{
    let a = raised(x);
    let b = raised(y);
    ((a as u64) * (b as u64)) as i64
}

// A sum of so many raised products, without the squares of the raise.
pub fn lowered(total: i64, terms: usize) -> i64
    requires { (total within 2 ^ 61) × (terms ≤ 128) }
    ensures { result ≡ total -ℤ raise *ℤ raise *ℤ pos terms }
{
    total - RAISED_SQUARE * (terms as i64)
}

// x·x.
pub fn square(x: i32) -> i64
    requires { x within 67108864 }
    ensures { result ≡ x *ℤ x }
{
    let size = x.unsigned_abs();
    ((size as u64) * (size as u64)) as i64
}
