// Scales of grades. A scale is a set of grades with an order, "at or below". This crate says what every scale owes, and has five: percent,
// verdict, supplier set, a scale turned round, and a pair of short scales.
#![tactic(auto)]

mod pair;
mod percent;
mod scale;
mod suppliers;
mod turned;
mod verdict;

pub use pair::{Belief, Pair, less_doubt_is_higher};
pub use percent::Percent;
pub use scale::{Scale, Short, Written};
pub use suppliers::{Suppliers, supplier_sets_are_sets};
pub use turned::Turned;
pub use verdict::Verdict;
