// Sums and differences of wide numbers, and 64-bit numbers as wide ones. A carry or a borrow of the low words goes to the high word.
ghost use Rattle.std.specs.Prelude.{◌≡◌, ◌^◌, ◌+ℤ◌, ◌-ℤ◌};
ghost use Rattle.integers.specs.Size.{◌within◌};
ghost use Rattle.model.specs.Wide.{value};

use crate::Wide;
use std::ops::{Add, Sub};

// A 64-bit number as a wide one: a negative number x has the high word −1, and in the low word what −1 − x leaves of the largest.
impl From<i64> for Wide {
    ghost from_gives = { λ x r. value r ≡ x };

    fn from(x: i64) -> Wide {
        if x < 0 {
            return Wide {
                high: -1,
                low: u64::MAX - ((-1 - x) as u64),
            };
        }
        Wide {
            high: 0,
            low: x as u64,
        }
    }
}

// a + b.
impl Add for Wide {
    type Output = Wide;

    ghost can_add = { λ a b. (value a within 2 ^ 124) × (value b within 2 ^ 124) };

    ghost add_gives = { λ a b r. value r ≡ value a +ℤ value b };

    fn add(self, other: Wide) -> Wide {
        let high = self.high + other.high;
        let left = self.low;
        let right = other.low;
        let room = u64::MAX - right;
        if left <= room {
            return Wide {
                high,
                low: left + right,
            };
        }
        Wide {
            high: high + 1,
            low: left - room - 1,
        }
    }
}

// a − b.
impl Sub for Wide {
    type Output = Wide;

    ghost can_sub = { λ a b. (value a within 2 ^ 124) × (value b within 2 ^ 124) };

    ghost sub_gives = { λ a b r. value r ≡ value a -ℤ value b };

    fn sub(self, other: Wide) -> Wide {
        let high = self.high - other.high;
        let left = self.low;
        let right = other.low;
        if right <= left {
            return Wide {
                high,
                low: left - right,
            };
        }
        Wide {
            high: high - 1,
            low: left + (u64::MAX - right) + 1,
        }
    }
}
