// Is it in range? `numbers` of each kind, `places` on the string, `lengths` of lent buffers.
#![tactic(auto)]

pub mod lengths;
pub mod numbers;
pub mod places;
