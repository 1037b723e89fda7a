// Sums of wide numbers and 64-bit ones.
ghost use Rattle.std.specs.Prelude.{◌≡◌, ◌^◌, ◌+ℤ◌};
ghost use Rattle.integers.specs.Size.{◌within◌};
ghost use Rattle.model.specs.Wide.{value};

use model::Wide;

// A wide number with a 64-bit number added.
pub fn added(a: Wide, x: i64) -> Wide
    requires { value a within 2 ^ 123 }
    ensures { value result ≡ value a +ℤ x }
{
    a + Wide::from(x)
}

// The sum of four 64-bit numbers.
pub fn four(a: i64, b: i64, c: i64, d: i64) -> Wide
    ensures { value result ≡ a +ℤ b +ℤ c +ℤ d }
{
    added(added(added(Wide::from(a), b), c), d)
}
