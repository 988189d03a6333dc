// Grades a file of measured lines.
use crate::failure::Failure;
use lines::{read_lines, row, summary};
use std::alloc::{AllocError, Global};
use surveys::Ramp;

// The whole report, so that nothing is printed of a file that has a fault.
fn report(heap: Global, ramp: &Ramp) -> Result<String, AllocError> {
    let mut text = String::new(heap);
    for (number, reading) in (1usize..).zip(ramp.readings.iter()) {
        text.push_str(row(heap, ramp, number, *reading)?.as_str())?;
        text.push('\n')?;
    }
    text.push_str(summary(heap, ramp)?.as_str())?;
    Ok(text)
}

pub(crate) fn grade_lines(rt: &HostRuntime, text: &[u8]) -> Result<(), Failure> {
    let heap = rt.alloc();
    let ramp = read_lines(heap, text)?;
    rt.println(report(heap, &ramp)?)?;
    Ok(())
}
