// Σ of the squares of numbers that are read by their index.
ghost use Rattle.std.specs.Prelude.{◌≡◌, ◌≤◌, length};
ghost use Rattle.model.specs.Differences.{dot};
ghost use Rattle.laws.specs.Sizes.{Bounded};

use crate::lines::Line;
use crate::products::square;

// One after the other, of so many numbers.
pub fn squares<L: Line + Copy>(line: L, count: usize) -> i64
    requires { L.ready line × (length (L.numbers line) ≡ count) × (count ≤ 127) × Bounded (L.numbers line) 67108864 }
    ensures { result ≡ dot (L.numbers line) (L.numbers line) }
{
    let mut total = 0i64;
    for i in 0..count {
        total += square(line.number(i));
    }
    total
}
