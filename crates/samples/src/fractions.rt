// 01, 'Playing a block, reading a place': whole numbers divided by 1,048,576 as floats, with nothing lost.
ghost use Rattle.std.specs.Prelude.{◌≡◌, T};
ghost use Rattle.std.specs.Float.{binary32, binary64};
ghost use Rattle.model.specs.Fraction.{fraction, Holds};
ghost use Rattle.model.specs.Ranges.{displacement_ok};

use model::bounds::{READING_UNIT, SAMPLE_UNIT};

// x / 1,048,576 in single precision.
pub fn single(x: i32) -> f32
    requires { T (displacement_ok x) }
    ensures { (result ≡ fraction binary32 x) × Holds result x }
{
    (x as f32) / SAMPLE_UNIT
}

// x / 1,048,576 in double precision.
pub fn double(x: i32) -> f64
    requires { T (displacement_ok x) }
    ensures { (result ≡ fraction binary64 x) × Holds result x }
{
    (x as f64) / READING_UNIT
}
