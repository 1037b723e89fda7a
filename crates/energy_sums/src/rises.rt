// 01, 'Differences': E(u, v), and E(a, a) for a = u − v. Each is summed with raised rises; a string's rises sum to 0, so that what is too much is the square of the
// raise for each segment.
ghost use Rattle.std.specs.Prelude.{◌≡◌, ◌≤◌, ◌<◌, length};
ghost use Rattle.integers.specs.Sum.{sum};
ghost use Rattle.model.specs.Differences.{at, minus, E};
ghost use Rattle.laws.specs.EnergySizes.{Strings};
ghost use Rattle.laws.specs.Strings.{rise};
ghost use Rattle.energy_sums.specs.Lines.{Pair};
ghost use Rattle.energy_sums.specs.Raised.{raised};

use crate::changes::Change;
use crate::lines::Line;
use crate::products::{lowered, raised_product};

// The product of both rises from index i − 1 to index i, raised.
fn rise_product<A: Line + Copy, B: Line + Copy>(a: A, b: B, i: usize) -> i64
    requires { A.ready a × B.ready b × Pair (A.numbers a) (B.numbers b) × (1 ≤ i) × (i < length (A.numbers a)) }
    ensures { result ≡ raised (rise (at (A.numbers a)) i) (rise (at (B.numbers b)) i) }
{
    let own = a.number(i);
    let left = a.number(i - 1);
    let other = b.number(i);
    let other_left = b.number(i - 1);
    raised_product(own - left, other - other_left)
}

// Those of all segments but the last, summed.
fn rise_products<A: Line + Copy, B: Line + Copy>(a: A, b: B, points: usize) -> i64
    requires { A.ready a × B.ready b × Pair (A.numbers a) (B.numbers b) × (points ≡ length (A.numbers a)) }
    ensures { result ≡ sum points (λ k. raised (rise (at (A.numbers a)) k) (rise (at (B.numbers b)) k)) }
{
    let own = a.number(0);
    let other = b.number(0);
    let mut total = raised_product(own, other);
    for i in 1..points {
        total += rise_product(a, b, i);
    }
    total
}

// E of two strings of so many points.
fn all_rises<A: Line + Copy, B: Line + Copy>(a: A, b: B, points: usize) -> i64
    requires { A.ready a × B.ready b × Pair (A.numbers a) (B.numbers b) × (points ≡ length (A.numbers a)) }
    ensures { result ≡ E (A.numbers a) (B.numbers b) }
{
    let own = a.number(points - 1);
    let other = b.number(points - 1);
    let total = rise_products(a, b, points);
    let last = raised_product(0 - own, 0 - other);
    lowered(total + last, points + 1)
}

// E(u, v).
pub fn rises(newer: &[i32], older: &[i32]) -> i64
    requires { Strings newer.now older.now }
    ensures { result ≡ E newer.now older.now }
{
    all_rises(newer, older, newer.len())
}

// E(a, a).
pub fn change_rises(newer: &[i32], older: &[i32]) -> i64
    requires { Strings newer.now older.now }
    ensures { result ≡ E (minus newer.now older.now) (minus newer.now older.now) }
{
    let change = Change { newer, older };
    all_rises(change, change, newer.len())
}
