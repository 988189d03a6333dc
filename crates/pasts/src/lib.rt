// What a board is: statements and rules in two tables, the calls on them, and what holds after every past of calls.
#![tactic(auto)]

mod call;
mod refusal;
mod statement;
pub mod theorems;

pub use call::{Answer, Call, Entry};
pub use refusal::Refusal;
pub use statement::{Event, Mark, Statement};
