// 01, 'What each operation turns down': what a step examines. `state` is the state that the turn selects, `rows` are the rows of a step's table, 11 to 14;
// `arguments` are those that a step and a block examine alike, 1 to 5, 6, 7 and 11.
#![tactic(auto)]

pub mod arguments;
pub mod rows;
pub mod state;
