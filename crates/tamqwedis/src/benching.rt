// The benchmarks' arguments, and the scale that they name.
use crate::failure::Failure;
use crate::input::input;
use crate::timing::{Benchmark, timed};
use plaintext::small_number;
use scales::{Belief, Percent, Suppliers, Verdict};
use std::env::Args;
use std::num::NonZeroU16;

// Runs the benchmark on what is left of the arguments, `FILE N [SCALE]`; without SCALE the board is one of percents.
pub(crate) fn bench(
    rt: &HostRuntime,
    benchmark: Benchmark,
    args: &mut Args,
) -> Result<(), Failure> {
    let path = args.next();
    let turns = turns(args.next());
    let scale = args.next();
    let (Some(path), Some(turns), None) = (path, turns, args.next()) else {
        return Err(Failure::Arguments);
    };
    let text = input(rt, Some(path))?;
    let line = match scale.as_ref().map_or("percent", |scale| scale.as_str()) {
        "percent" => timed::<Percent>(rt, benchmark, &text, turns)?,
        "verdict" => timed::<Verdict>(rt, benchmark, &text, turns)?,
        "suppliers" => timed::<Suppliers>(rt, benchmark, &text, turns)?,
        "belief" => timed::<Belief>(rt, benchmark, &text, turns)?,
        _ => return Err(Failure::ScaleName),
    };
    rt.println(line)?;
    Ok(())
}

// How often the benchmark is to run.
fn turns(word: Option<String>) -> Option<NonZeroU16> {
    small_number(word?.as_bytes()).and_then(NonZeroU16::new)
}
