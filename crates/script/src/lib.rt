// Scripts of calls on a board: carries a line out and answers it.
#![tactic(auto)]

mod answers;
mod boards;
mod desks;
mod dumps;
mod faults;
mod runner;
mod texts;

pub use desks::{Desk, Size};
pub use faults::ScriptError;
pub use runner::{Script, load_path, run_line, run_load};
pub use texts::Loaded;
