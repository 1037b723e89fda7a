// 01, 'One step': how a number is rounded. `quotient` is the whole number nearest a quotient, `system` the rounded solution of two equations.
#![tactic(auto)]

pub mod quotient;
pub mod system;
