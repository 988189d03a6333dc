// What is printed of measured lines: a row for each, and a summary.
use crate::standings::{Standing, count};
use plaintext::bar;
use scales::{Percent, Scale};
use std::alloc::{AllocError, Global};
use surveys::{Ramp, UNMEASURED};

// The line's number, its reading, its grade and a bar; an unmeasured line has `-` for its reading.
pub fn row(heap: Global, ramp: &Ramp, number: usize, reading: u16) -> Result<String, AllocError> {
    let grade = ramp.grade(reading);
    let points = grade.points();
    let mark = bar(heap, grade.level(), Percent::height())?;
    if reading == UNMEASURED {
        format!(in heap; "{number:>5} {:>8} {points:>5} |{mark:<20}|", "-")
    } else {
        format!(in heap; "{number:>5} {reading:>8} {points:>5} |{mark:<20}|")
    }
}

pub fn summary(heap: Global, ramp: &Ramp) -> Result<String, AllocError> {
    let lines = ramp.readings.len();
    let unmeasured = count(ramp, Standing::Unmeasured);
    let full = count(ramp, Standing::Full);
    let zero = count(ramp, Standing::Zero);
    let between = count(ramp, Standing::Between);
    format!(in heap;
        "{lines} lines, {unmeasured} unmeasured, {full} at 100, {zero} at 0, {between} in between"
    )
}
