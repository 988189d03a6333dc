// A file of measured lines: a line `ramp NEAR FAR`, then one reading a line. Blank lines and lines that begin with `#` are skipped.
#![tactic(auto)]

mod measured;
mod report;
mod standings;
pub mod theorems;

pub use measured::{Expected, Fault, ReadError, read_lines};
pub use report::{row, summary};
pub use standings::{Standing, count};
