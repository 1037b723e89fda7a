// The numbers that the rule compares, x^12 · 2^q, which pass 64 bits.
ghost use Rattle.std.specs.Prelude.{◌≡◌, ◌*◌, ◌^◌, ◌≤◌, pos};
ghost use Rattle.model.specs.Wide.{value};

use model::Wide;
use wide::product::times;

// x^12 · 2^q, from the third power of x.
pub fn scaled_power(x: u32, q: u32) -> Wide
    requires { (x ≤ 256) × (q ≤ 24) }
    ensures { value result ≡ pos (x ^ 12 * 2 ^ q) }
{
    let cube = x * x * x;
    let wide = cube as u64;
    let sixth = Wide {
        high: 0,
        low: wide * wide,
    };
    times(times(times(sixth, cube), cube), 1 << q)
}
