// 01, 'Energy', exactly: `stored` is the stored energy of a state, `loss` and `work` are those of a step, from the states before and after it, and the work of a bend. The sums
// over the points are 64-bit numbers, each part of an energy is within 2^62, and the parts are added as numbers of two words.
#![tactic(auto)]

pub mod loss;
pub mod stored;
pub mod work;
