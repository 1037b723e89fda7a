// 01, 'Contact gradient', and 02, items 3 and 4: the contacts of a step before its moves. `clearing` is what is kept of a contact variable, `root` the root of
// a number q, `gradient` the gradient for a stiffness and a depth, `pressed` which points touch the neck, `gradients` those of all points, `finger` both of the finger.
#![tactic(auto)]

pub mod clearing;
pub mod finger;
pub mod gradient;
pub mod gradients;
pub mod pressed;
pub mod root;
