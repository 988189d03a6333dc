// Plain text in and out: lines, words and decimal numbers of a text that is lent, and bars.
#![tactic(auto)]

mod appended;
mod bars;
mod classes;
mod cuts;
mod decimals;
mod iters;
pub mod theorems;

pub use appended::push_bytes;
pub use bars::bar;
pub use cuts::{is_blank, lines, next_line, next_word, same_word, some_word, words};
pub use decimals::{number, small_number};
pub use iters::{Lines, Words};
