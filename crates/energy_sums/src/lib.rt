// 01, 'Energy': the sums over the points that a stored energy and a loss are made of, for newer string u, older string v and a = u − v. `products` are their terms,
// `lines` the numbers that are read for them and `squares` the sum of their squares; `changes` is Σ a², `rises` are E(u, v) and E(a, a), `bends` is Σ D1u·D1v,
// `contacts` are the squares of the contact variables.
#![tactic(auto)]

pub mod bends;
pub mod changes;
pub mod contacts;
pub mod lines;
pub mod products;
pub mod rises;
pub mod squares;
