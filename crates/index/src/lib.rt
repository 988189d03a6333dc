// How a board's rules are found without a scan, and its lowest active statement in a few words: what chains of places list, and a set of
// numbers as binary digits.
#![tactic(auto)]

mod sets;
pub mod theorems;
mod words;

pub use sets::NumberSet;
pub use words::{has, insert, lowest, trim};
