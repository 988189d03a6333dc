// Malformed lines of scripts, and a board that was refused.
use script::{Script, ScriptError, run_line};
use spelling::Expected;
use std::alloc::Global;
use std::test::Fail;

// What a line says was expected, on a board of percents with two statements and two places.
fn due(heap: Global, line: &str) -> Result<Option<Expected>, Fail> {
    let mut script = Script::NoBoard;
    let _made = run_line(heap, &mut script, b"board percent 2 2")?;
    match run_line(heap, &mut script, line.as_bytes()) {
        Ok(_) => Ok(None),
        Err(ScriptError::Malformed(expected)) => Ok(Some(expected)),
        Err(ScriptError::NoMemory) => Err(Fail::new("there is memory")),
    }
}

#[test]
fn malformed_calls(rt: HostRuntime) -> Result<(), Fail> {
    let heap = rt.alloc();
    assert_eq!(rt; due(heap, "wants 1")?, Some(Expected::Verb));
    assert_eq!(rt; due(heap, "want")?, Some(Expected::Number));
    assert_eq!(rt; due(heap, "want 1 2")?, Some(Expected::LineEnd));
    assert_eq!(rt; due(heap, "step 1")?, Some(Expected::LineEnd));
    assert_eq!(rt; due(heap, "add 1 1 B 50")?, Some(Expected::FormLetter));
    assert_eq!(rt; due(heap, "add 1 1 AA 50")?, Some(Expected::FormLetter));
    assert_eq!(rt; due(heap, "add 1 1 A 101")?, Some(Expected::GradeCode));
    assert_eq!(rt;
        due(heap, "add 1 1 A 50 1 1 1 1 1")?,
        Some(Expected::FourBodies)
    );
    assert_eq!(rt; due(heap, "add 1 1 A 50 1 1 1 1")?, None);
    assert_eq!(rt; due(heap, "want 99999999999999999999")?, None);
    Ok(())
}

#[test]
fn malformed_boards(rt: HostRuntime) -> Result<(), Fail> {
    let heap = rt.alloc();
    assert_eq!(rt; due(heap, "board percents 1 1")?, Some(Expected::ScaleName));
    assert_eq!(rt; due(heap, "board percent 1")?, Some(Expected::Number));
    assert_eq!(rt;
        due(heap, "board percent 1 1 list 3")?,
        Some(Expected::SurveyPart)
    );
    assert_eq!(rt;
        due(heap, "board percent 1 1 listed 101")?,
        Some(Expected::GradeCode)
    );
    assert_eq!(rt;
        due(heap, "board percent 1 1 ramp 1 65536")?,
        Some(Expected::Reading)
    );
    assert_eq!(rt;
        due(heap, "board verdict 1 1 listed 1 ramp 1 2")?,
        Some(Expected::NoRamp)
    );
    assert_eq!(rt;
        due(heap, "board verdict 1 1 listed 4")?,
        Some(Expected::GradeCode)
    );
    assert_eq!(rt; due(heap, "board suppliers 1 1 listed")?, None);
    assert_eq!(rt; due(heap, "board percent 1 1 ramp 1 2 3 4")?, None);
    Ok(())
}

#[test]
fn a_call_before_the_first_board(rt: HostRuntime) {
    let mut script = Script::NoBoard;
    let refused = run_line(rt.alloc(), &mut script, b"step").err();
    assert_eq!(rt; refused, Some(ScriptError::Malformed(Expected::BoardFirst)));
}

#[test]
fn what_is_said_of_a_line(rt: HostRuntime) -> Result<(), Fail> {
    let heap = rt.alloc();
    let malformed = ScriptError::Malformed(Expected::Number).to_string(heap)?;
    assert_eq!(rt; malformed.as_str(), "expected a decimal number");
    let no_memory = ScriptError::NoMemory.to_string(heap)?;
    assert_eq!(rt; no_memory.as_str(), "out of memory");
    Ok(())
}
