// 01, 'Differences', at a point: index i of a slice is place i + 1. D1 is that of a string by place, the weighted string.
ghost use Rattle.std.specs.Prelude.{◌≡◌, List, ℕ, suc, ◌<◌, ℤ, pos, length, get_or};
ghost use Rattle.integers.specs.Size.{◌within◌};
ghost use Rattle.model.specs.Differences.{at, minus, D1};
ghost use Rattle.motion.specs.Weighted.{placed, weighted_size};

use model::bounds::MOST_PLACES;

// The difference of two strings at a point.
pub fn difference(newer: &[i32], older: &[i32], i: usize) -> i64
    requires { (length newer.now ≡ length older.now) × (i < length newer.now) }
    ensures { result ≡ at (minus newer.now older.now) (suc i) }
{
    let u = newer[i];
    let v = older[i];
    (u as i64) - (v as i64)
}

// D1 at a point of the string that an array holds by place: left neighbour − 2·own + right neighbour.
pub fn d1(string: &[i64; MOST_PLACES], i: usize) -> i64
    requires { ((k : ℕ) → get_or string.now k (pos 0) within weighted_size) × (i < 127) }
    ensures { (t : List ℤ) → string.now ≡ placed t → i < length t → result ≡ at (D1 t) (suc i) }
{
    let left = string[i];
    let own = string[i + 1];
    let right = string[i + 2];
    left - 2 * own + right
}
