// What a pickup hears. `fractions` are displacements over 1,048,576 as floats, `frame` is the pickup frame.
#![tactic(auto)]

pub mod fractions;
pub mod frame;
