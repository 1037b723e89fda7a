// Range tests of numbers, given or worked out: whether one, or every number of a lent slice, is of its kind: in the range that document 01 gives to numbers of that kind.
ghost use Rattle.std.specs.Prelude.{◌≡◌, Bool, ℤ};
ghost use Rattle.model.specs.Ranges as Ranges;
ghost use Rattle.model.specs.Ranges.{all, inside, displacement_ok, contact_ok, force_ok, height_ok};

use model::bounds::{CONTACT, DISPLACEMENT, FORCE, HEIGHT, Range};

// The range of a kind of number.
pub trait Kind {
    // A number is in it.
    ghost ok: { ℤ → Bool };

    fn holds(number: i64) -> bool
        ensures { result ≡ ok number };
}

// Displacements and finger heights.
pub struct Displacement;

pub struct ContactVariable;

pub struct Force;

// Heights of the board or of the neck.
pub struct Height;

impl Kind for Displacement {
    ghost ok = { displacement_ok };

    #[inline(always)]
    #[tactic(auto, unfolding(model::specs::Ranges::displacement_ok))]
    fn holds(number: i64) -> bool {
        inside(number, DISPLACEMENT)
    }
}

impl Kind for ContactVariable {
    ghost ok = { contact_ok };

    #[inline(always)]
    #[tactic(auto, unfolding(model::specs::Ranges::contact_ok))]
    fn holds(number: i64) -> bool {
        inside(number, CONTACT)
    }
}

impl Kind for Force {
    ghost ok = { force_ok };

    #[inline(always)]
    #[tactic(auto, unfolding(model::specs::Ranges::force_ok))]
    fn holds(number: i64) -> bool {
        inside(number, FORCE)
    }
}

impl Kind for Height {
    ghost ok = { height_ok };

    #[inline(always)]
    #[tactic(auto, unfolding(model::specs::Ranges::height_ok))]
    fn holds(number: i64) -> bool {
        inside(number, HEIGHT)
    }
}

// The number lies in the range.
#[inline(always)]
#[tactic(auto, unfolding(model::specs::Ranges::inside))]
pub fn inside(number: i64, range: Range) -> bool
    ensures { result ≡ inside range.least number range.largest }
{
    (range.least as i64 <= number) & (number <= range.largest as i64)
}

// Every number lies from low to high.
pub fn all_inside_i32(numbers: &[i32], low: i32, high: i32) -> bool
    ensures { result ≡ all (λ x. inside low x high) numbers.now }
{
    let range = Range {
        least: low,
        largest: high,
    };
    let mut ok = true;
    for x in numbers {
        ok &= inside(*x as i64, range);
    }
    ok
}

// Every number is of the kind. The scan has no early exit, so that the compiler takes several numbers at once.
pub fn all_hold<K: Kind>(numbers: &[i32]) -> bool
    ensures { result ≡ all K.ok numbers.now }
{
    let mut ok = true;
    for number in numbers {
        ok &= K::holds(*number as i64);
    }
    ok
}

// An unsigned number: low ≤ number ≤ high.
#[tactic(auto, unfolding(model::specs::Ranges::between))]
pub fn between(low: u32, number: u32, high: u32) -> bool
    ensures { result ≡ Ranges.between low number high }
{
    (low <= number) & (number <= high)
}
