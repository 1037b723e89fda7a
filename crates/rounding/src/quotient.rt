// 01, 'One step', and 02, item 2: rounding is to the nearest whole number, a tie to the even one.
ghost use Rattle.std.specs.Prelude.{◌≡◌, ◌^◌, pos, ◌<ℤ◌};
ghost use Rattle.integers.specs.Size.{◌within◌};
ghost use Rattle.model.specs.Rounding;

// The whole number nearest num / den: the floor of num / den + 1/2. The machine's quotient is cut toward zero, so it is one too large
// where the remainder is negative. Where nothing remains, the quotient and the number below it are as near, and the even one of them is taken.
// The sizes are those of the finger's system, the largest of a step.
pub fn nearest(num: i64, den: i64) -> i64
    requires { (pos 0 <ℤ den) × (num within 2 ^ 61) × (den within 2 ^ 38) }
    ensures { result ≡ Rounding.nearest num den }
{
    let twice = 2 * num + den;
    let unit = 2 * den;
    let quotient = twice / unit;
    let rest = twice % unit;
    if rest == 0 {
        2 * (quotient >> 1)
    } else if rest < 0 {
        quotient - 1
    } else {
        quotient
    }
}
