// A line of a script of calls: its fields, and the call that it spells.
#![tactic(auto)]

mod calls;
mod fields;

pub use calls::spelled_call;
pub use fields::{Expected, end, grade_field, number_field, reading_field};
