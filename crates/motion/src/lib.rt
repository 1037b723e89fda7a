// 01, 'One step', and 02, item 3: how far the points of the string move, and where that leads. In the order in which they build on each other:
// `weighted`, the string whose D1 is the string terms of c; `differences`, at a point; `equation`, A and c of a point and its move; `pulling`, what a working
// leaves of a gradient; `settled`, the last move of a point where no finger stands; `points`, of all points, were there no finger; `next`, the new string.
#![tactic(auto)]

pub mod differences;
pub mod equation;
pub mod next;
pub mod points;
pub mod pulling;
pub mod settled;
pub mod weighted;
