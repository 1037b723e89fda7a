// 01, 'One step', and 02, item 3: the finger and the point under it. In the order in which they build on each other: `system`, the two equations of the finger
// and its point, solved; `pair`, its workings; `point`, the last moves of both; `next`, the new finger.
#![tactic(auto)]

pub mod next;
pub mod pair;
pub mod point;
pub mod system;
