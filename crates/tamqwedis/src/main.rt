// The program: carries out a script of calls on a board, grades a file of measured lines, or times itself.
#![tactic(auto)]

mod benching;
mod failure;
mod input;
mod measured;
mod scripted;
mod stopwatch;
mod timing;

use benching::bench;
use failure::Failure;
use input::input;
use measured::grade_lines;
use scripted::run_script;
use std::env;
use std::process::ExitCode;
use timing::Benchmark;

// `tamqwedis [FILE]` runs a script, `tamqwedis lines [FILE]` grades measured lines; without FILE standard input is read.
// `tamqwedis bench FILE N [SCALE]` and its like time the calls on a board.
fn run(rt: &HostRuntime) -> Result<(), Failure> {
    let mut args = env::args(rt)?;
    let _program = args.next();
    let Some(first) = args.next() else {
        return run_script(rt, &input(rt, None)?);
    };
    match first.as_str() {
        "lines" => grade_lines(rt, &input(rt, args.next())?),
        "bench" => bench(rt, Benchmark::Finish, &mut args),
        "bench-text" => bench(rt, Benchmark::Text, &mut args),
        "bench-withdraw" => bench(rt, Benchmark::Withdraw, &mut args),
        _ => run_script(rt, &input(rt, Some(first))?),
    }
}

fn main(rt: HostRuntime) -> ExitCode {
    match run(&rt) {
        Ok(()) => ExitCode::SUCCESS,
        Err(failure) => {
            let _ = eprintln!(rt; "tamqwedis: {failure}");
            ExitCode::FAILURE
        }
    }
}
