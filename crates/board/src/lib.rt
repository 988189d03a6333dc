// What a board does: the calls on its two lent tables, each held to its outcome, and whole pasts of them.
// Every public call is a generic function over the two tables, which it is lent as slices of records: that is the interface. So the
// tables go side by side within the crate too, and a function says itself what it needs of them once they are checked: a call changes
// both of them, the statements alone or neither, so in place of one struct that holds them there would be three.
// `as` changes a number's type only where it is proved to lose nothing: `from` would say the same, and `try_from` would add a failure that
// cannot come.
// A board's calls take no memory, so that none can fail for want of it: what they keep lies in local arrays and in no `Vec` or map.
#![tactic(auto)]

mod adding;
mod blanks;
mod chaining;
mod checking;
mod clearing;
mod falling;
mod finishing;
mod following;
mod leading;
mod noting;
mod numbered;
mod performing;
mod reaching;
mod reading;
mod replaying;
mod running;
mod stepping;
mod telling;
mod valuing;
mod wanting;
mod withdrawing;
mod worths;

pub use adding::add;
pub use checking::{check_lengths, check_tables};
pub use clearing::clear;
pub use finishing::finish;
pub use performing::perform;
pub use reading::read;
pub use replaying::replay;
pub use stepping::step;
pub use wanting::want;
pub use withdrawing::withdraw;
pub use worths::worth;
