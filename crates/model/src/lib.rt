// What rules force: rules over numbered statements, and the least model that they have.
#![tactic(auto)]

mod rule;
pub mod theorems;

pub use rule::{Form, Rule};
