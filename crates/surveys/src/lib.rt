// Surveys: what was measured. A survey gives each statement a degree, a grade of the one scale that it names.
#![tactic(auto)]

mod joined;
mod listed;
mod ramp;
mod survey;
mod table;
pub mod theorems;

pub use joined::Joined;
pub use listed::Listed;
pub use ramp::{Ramp, UNMEASURED};
pub use survey::Survey;
