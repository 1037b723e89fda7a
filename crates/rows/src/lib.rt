// The rows of numbers that C gives and gets: the setup in one row, and each answer as a row. The refusal is 0 where there is none, and after a refusal every number
// that has no meaning is 0.
#![tactic(auto)]

pub mod bent_row;
pub mod block_row;
pub mod booked_row;
pub mod changed_row;
pub mod numbers;
pub mod reading_row;
pub mod setup_row;
pub mod start_row;
pub mod step_row;
