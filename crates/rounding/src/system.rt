// 01, 'One step': a two-by-two system, solved by determinants, each part of the solution rounded.
ghost use Rattle.std.specs.Prelude.{◌≡◌};
ghost use Rattle.rounding.specs.Systems.{system_of, rounded, Solvable};

use crate::quotient::nearest;

// The rows of the matrix, and the right side: matrix·(x, y) = right.
#[derive(Clone, Copy)]
pub struct System {
    pub matrix: [[i64; 2]; 2],
    pub right: [i64; 2],
}

// x and y, each rounded.
#[derive(Clone, Copy)]
pub struct Solution {
    pub x: i64,
    pub y: i64,
}

impl System {
    // Its solution, by determinants.
    pub fn solve(self) -> Solution
        requires { Solvable (system_of self) }
        ensures { result ≡ rounded (system_of self) }
    {
        let [[a11, a12], [a21, a22]] = self.matrix;
        let [b1, b2] = self.right;
        let det = a11 * a22 - a12 * a21;
        let det1 = b1 * a22 - a12 * b2;
        let det2 = a11 * b2 - b1 * a21;
        Solution {
            x: nearest(det1, det),
            y: nearest(det2, det),
        }
    }
}
