// The product of two 64-bit numbers as a wide one, and of a wide number and a small one.
ghost use Rattle.std.specs.Prelude.{◌≡◌, ◌*◌, ◌^◌, pos, ◌*ℤ◌};
ghost use Rattle.integers.specs.Size.{◌within◌};
ghost use Rattle.model.specs.Wide.{value};

use model::Wide;

// x · 2^24.
fn raised(x: i64) -> Wide
    requires { x within 2 ^ 61 }
    ensures { value result ≡ x *ℤ pos (2 ^ 24) }
{
    let high = x >> 40;
    let rest = x - high * 1099511627776;
    Wide {
        high,
        low: (rest as u64) * 16777216,
    }
}

// a · b, of which the one is within 2^34 and the other within 2^50.
pub fn product(a: i64, b: i64) -> Wide
    requires { (a within 2 ^ 34) × (b within 2 ^ 50) }
    ensures { value result ≡ a *ℤ b }
{
    let upper = b >> 24;
    let lower = b - upper * 16777216;
    raised(a * upper) + Wide::from(a * lower)
}

// x · m, by the halves of x.
fn small_product(x: u64, m: u32) -> Wide
    ensures { value result ≡ pos (x * m) }
{
    let factor = m as u64;
    let lower = (x % 4294967296) * factor;
    let upper = (x / 4294967296) * factor + lower / 4294967296;
    Wide {
        high: (upper / 4294967296) as i64,
        low: (upper % 4294967296) * 4294967296 + lower % 4294967296,
    }
}

// a · m.
pub fn times(a: Wide, m: u32) -> Wide
    requires { (value a *ℤ pos m) within 2 ^ 124 }
    ensures { value result ≡ value a *ℤ pos m }
{
    let high = a.high;
    let rest = small_product(a.low, m);
    let carry = rest.high;
    Wide {
        high: high * (m as i64) + carry,
        low: rest.low,
    }
}
