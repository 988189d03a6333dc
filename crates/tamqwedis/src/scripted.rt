// Carries out a script and prints its answers as they come.
use crate::failure::Failure;
use crate::input::input;
use plaintext::{lines, push_bytes};
use script::{Loaded, Script, ScriptError, load_path, run_line, run_load};
use std::alloc::{AllocError, Global};

// One line, with its file read where it is a `load`.
fn run_one(rt: &HostRuntime, script: &mut Script, line: &[u8]) -> Result<String, Failure> {
    let heap = rt.alloc();
    let Some(path) = load_path(line) else {
        return Ok(run_line(heap, script, line)?);
    };
    let mut name = String::new(heap);
    push_bytes(&mut name, path)?;
    let text = input(rt, Some(name))?;
    let Loaded { answer, note } = run_load(heap, script, path, &text)?;
    rt.eprint(note)?;
    Ok(answer)
}

// The failure with the number of its line. Where a script had no memory left, there is none for more words.
fn on_line(heap: Global, number: usize, failure: Failure) -> Result<Failure, AllocError> {
    match failure {
        Failure::Script(ScriptError::NoMemory) => Ok(failure),
        _ => Ok(Failure::OnLine(format!(in heap; "line {number}: {failure}")?)),
    }
}

// A malformed line ends the run; the answers before it stay printed.
pub(crate) fn run_script(rt: &HostRuntime, text: &[u8]) -> Result<(), Failure> {
    let mut script = Script::NoBoard;
    for (number, line) in (1usize..).zip(lines(text)) {
        // a match: to tell the failure takes memory, which may be wanting, so that no map_err serves
        match run_one(rt, &mut script, line) {
            Ok(answer) => rt.print(answer)?,
            Err(failure) => return Err(on_line(rt.alloc(), number, failure)?),
        }
    }
    Ok(())
}
