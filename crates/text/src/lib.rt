// How a board is spelled: `load` reads board text into two lent tables, and `write` spells a board into a lent buffer.
// `as` changes a number's type only where it is proved to lose nothing: `from` would say the same, and `try_from` would add a failure that
// cannot come.
#![tactic(auto)]

mod decimal;
mod faults;
mod fields;
mod limits;
mod lines;
mod loading;
mod numbered;
mod reader;
mod rows;
pub mod theorems;
mod writing;

pub use faults::{Fault, FieldFault, Layer, LineFault, Place, Report};
pub use loading::load;
pub use writing::write;
