// The time that something takes, turn by turn.
use crate::failure::Failure;
use std::num::NonZeroU16;
use std::time::{Duration, Instant};

// How long its turns took in all.
#[derive(Drop)]
pub(crate) struct Stopwatch {
    total: Duration,
}

impl Stopwatch {
    pub(crate) fn new() -> Stopwatch {
        Stopwatch {
            total: Duration::ZERO,
        }
    }

    // Does the work, and adds the time that it takes.
    pub(crate) fn time<T: Drop, W: FnOnce() -> T>(
        &mut self,
        rt: &HostRuntime,
        work: W,
    ) -> Result<T, Failure>
        requires { W.IsAlwaysCallable work }
    {
        let start = Instant::now(rt)?;
        let done = work();
        let taken = start.elapsed(rt)?;
        self.total = self.total.checked_add(taken).ok_or(Failure::ClockTooFar)?;
        Ok(done)
    }

    // Whole nanoseconds for each of so many turns.
    pub(crate) fn nanos(&self, turns: NonZeroU16) -> u128 {
        self.total.as_nanos() / u128::from(turns.get())
    }
}
