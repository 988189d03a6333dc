// Carries a script out, line by line, on the board that the last `board` line made.
use crate::answers::answer_line;
use crate::boards::{clear_line, listed_alone, listed_and_ramp, size_of};
use crate::desks::Desk;
use crate::dumps::{grades, tables};
use crate::faults::ScriptError;
use crate::texts::{Loaded, load_line, write_line};
use plaintext::{is_blank, next_word, words};
use scales::{Belief, Percent, Suppliers, Verdict, Written};
use spelling::{Expected, end, spelled_call};
use std::alloc::Global;
use surveys::{Joined, Listed, Ramp, Survey};

// The board that a script works on.
#[derive(Drop)]
pub enum Script {
    NoBoard,
    Percent(Desk<Percent, Joined<Listed<Percent>, Ramp>>),
    Verdict(Desk<Verdict, Listed<Verdict>>),
    Suppliers(Desk<Suppliers, Listed<Suppliers>>),
    Belief(Desk<Belief, Listed<Belief>>),
}

// The same work on the desk of each scale. Their types differ, and no closure is generic over them.
macro_rules! on_board {
    ($script:expr, $desk:ident => $work:expr) => {
        match $script {
            Script::NoBoard => Err(ScriptError::Malformed(Expected::BoardFirst)),
            Script::Percent($desk) => $work,
            Script::Verdict($desk) => $work,
            Script::Suppliers($desk) => $work,
            Script::Belief($desk) => $work,
        }
    };
}

// What a line prints: nothing where it is blank or begins with `#`. A `load` line is for `run_load`, once its file was read.
pub fn run_line(heap: Global, script: &mut Script, line: &[u8]) -> Result<String, ScriptError> {
    let (verb, rest) = next_word(line);
    match verb {
        [] | [b'#', ..] => Ok(String::new(heap)),
        b"board" => board_line(heap, script, rest),
        _ => on_board!(script, desk => desk_line(heap, desk, verb, rest)),
    }
}

// The path that a `load` line names.
pub fn load_path(line: &[u8]) -> Option<&[u8]> {
    let mut words = words(line);
    // of a line that is no load, as nearly all are, only the first word is read
    let Some(b"load") = words.next() else {
        return None;
    };
    let path = words.next()?;
    is_blank(words.rest()).then_some(path)
}

// Loads the text of a file into the current board.
pub fn run_load(
    heap: Global,
    script: &mut Script,
    path: &[u8],
    text: &[u8],
) -> Result<Loaded, ScriptError> {
    on_board!(script, desk => Ok(load_line(heap, desk, path, text)?))
}

fn desk_line<G: Written, V: Survey<Grade = G>>(
    heap: Global,
    desk: &mut Desk<G, V>,
    verb: &[u8],
    rest: &[u8],
) -> Result<String, ScriptError> {
    match verb {
        b"tables" => {
            end(rest)?;
            Ok(tables(heap, desk)?)
        }
        b"grades" => {
            end(rest)?;
            Ok(grades(heap, desk)?)
        }
        b"write" => {
            end(rest)?;
            Ok(write_line(heap, desk)?)
        }
        _ => {
            let call = spelled_call(verb, rest)?;
            let answer = desk.call(&call);
            let (number, _) = next_word(rest);
            Ok(answer_line(heap, verb, number, answer)?)
        }
    }
}

// Makes the board that the rest of a `board` line spells, also where it is refused.
fn board_line(heap: Global, script: &mut Script, rest: &[u8]) -> Result<String, ScriptError> {
    let (scale, rest) = next_word(rest);
    match scale {
        b"percent" => make(heap, script, rest, Script::Percent, listed_and_ramp),
        b"verdict" => make(heap, script, rest, Script::Verdict, listed_alone),
        b"suppliers" => make(heap, script, rest, Script::Suppliers, listed_alone),
        b"belief" => make(heap, script, rest, Script::Belief, listed_alone),
        _ => Err(ScriptError::Malformed(Expected::ScaleName)),
    }
}

// Makes the board of one scale: `read` reads its survey off the line, and `kept` is where it belongs.
fn make<G, V, R, K>(
    heap: Global,
    script: &mut Script,
    line: &[u8],
    kept: K,
    read: R,
) -> Result<String, ScriptError>
where
    G: Written,
    V: Survey<Grade = G> + Drop,
    R: FnOnce(Global, &[u8]) -> Result<V, ScriptError>,
    K: FnOnce(Desk<G, V>) -> Script,
    requires kept { K.IsAlwaysCallable kept }
    requires read { R.IsAlwaysCallable read }
{
    let (statements, rest) = next_word(line);
    let (places, rest) = next_word(rest);
    let size = size_of(statements, places)?;
    let mut desk = Desk::new(heap, read(heap, rest)?, size)?;
    let text = clear_line(heap, &mut desk)?;
    *script = kept(desk);
    Ok(text)
}
