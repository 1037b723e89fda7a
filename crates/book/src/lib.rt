// 02, item 6: the energy book. `refusals` examines a book, `entering` makes a new one and enters a step or a bend.
#![tactic(auto)]

pub mod entering;
pub mod refusals;
