// 01, 'Energy': Σ D1u·D1v over the points, summed with raised bends; a string's bends sum to what it lacks at both ends.
ghost use Rattle.std.specs.Prelude.{◌≡◌, [], ◌∷◌, ◌+◌, ◌-◌, ◌≤◌, ◌<◌, ◌+ℤ◌, ◌*ℤ◌, length};
ghost use Rattle.integers.specs.Machine.{Within};
ghost use Rattle.integers.specs.Sum.{sum, bend};
ghost use Rattle.model.specs.Differences.{at, D1, dot};
ghost use Rattle.laws.specs.EnergySizes.{Strings};
ghost use Rattle.energy_sums.specs.Raised.{raise, raised};

use crate::products::{RAISE, lowered, raised_product};

// The product of D1 of both strings at index i, raised, where there is a neighbour on both sides.
fn bend_product(newer: &[i32], older: &[i32], i: usize) -> i64
    requires { Strings newer.now older.now × (1 ≤ i) × (i + 1 < length newer.now) }
    ensures { result ≡ raised (bend (at newer.now) i) (bend (at older.now) i) }
{
    let left = newer[i - 1];
    let own = newer[i];
    let right = newer[i + 1];
    let old_left = older[i - 1];
    let old = older[i];
    let old_right = older[i + 1];
    raised_product(left - 2 * own + right, old_left - 2 * old + old_right)
}

// Those of all points but the last, summed; there are two points or more.
fn bend_products(newer: &[i32], older: &[i32]) -> i64
    requires { Strings newer.now older.now × (2 ≤ length newer.now) }
    ensures { result ≡ sum (length newer.now - 1) (λ k. raised (bend (at newer.now) k) (bend (at older.now) k)) }
{
    let own = newer[0];
    let right = newer[1];
    let old = older[0];
    let old_right = older[1];
    let mut total = raised_product(right - 2 * own, old_right - 2 * old);
    let last = newer.len() - 1;
    for i in 1..last {
        total += bend_product(newer, older, i);
    }
    total
}

// What the bends of both strings sum to, raised: from their first and last values.
fn raised_ends(first: i32, last: i32, old_first: i32, old_last: i32) -> i64
    requires { Within (first ∷ last ∷ old_first ∷ old_last ∷ []) (1048576 ∷ 1048576 ∷ 1048576 ∷ 1048576 ∷ []) }
    ensures { result ≡ raise *ℤ (first +ℤ last +ℤ old_first +ℤ old_last) }
{
    (RAISE as i64) * ((first + last + old_first + old_last) as i64)
}

// Of two points or more: the last one, and what the bends sum to.
fn many_bends(newer: &[i32], older: &[i32]) -> i64
    requires { Strings newer.now older.now × (2 ≤ length newer.now) }
    ensures { result ≡ dot (D1 newer.now) (D1 older.now) }
{
    let points = newer.len();
    let first = newer[0];
    let left = newer[points - 2];
    let own = newer[points - 1];
    let old_first = older[0];
    let old_left = older[points - 2];
    let old = older[points - 1];
    let total = bend_products(newer, older);
    let last = raised_product(left - 2 * own, old_left - 2 * old);
    let ends = raised_ends(first, own, old_first, old);
    lowered(total + last + ends, points)
}

pub fn bends(newer: &[i32], older: &[i32]) -> i64
    requires { Strings newer.now older.now }
    ensures { result ≡ dot (D1 newer.now) (D1 older.now) }
{
    if newer.len() == 1 {
        let own = newer[0];
        let old = older[0];
        return 4 * ((own as i64) * (old as i64));
    }
    many_bends(newer, older)
}
