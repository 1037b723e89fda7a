// 02, item 6: signed numbers of 128 bits in two words. `sums` adds 64-bit numbers, `order` compares two, `product` is one of two 64-bit numbers. Each is
// that of the whole numbers, under the bound that its contract states.
#![tactic(auto)]

pub mod order;
pub mod product;
pub mod sums;
