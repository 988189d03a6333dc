// The line that makes a board: `board SCALE STATEMENTS PLACES [listed CODE...] [ramp NEAR FAR READING...]`.
use crate::desks::{Desk, Size};
use crate::faults::ScriptError;
use board::clear;
use plaintext::{Words, words};
use scales::{Percent, Written};
use spelling::{Expected, grade_field, number_field, reading_field};
use std::alloc::{AllocError, Global};
use surveys::{Joined, Listed, Ramp};

const RAMP: &[u8] = b"ramp";

// Lengths past a limit are judged alike, so one more than the limit is enough.
pub fn size_of(statements: &[u8], places: &[u8]) -> Result<Size, ScriptError> {
    let statements = usize::from(number_field(statements)?).min(1025);
    let places = usize::from(number_field(places)?).min(4097);
    Ok(Size { statements, places })
}

// The words after `ramp`, where the line has a ramp.
fn after_ramp(line: &[u8]) -> Option<Words<'_>> {
    let mut words = words(line);
    words.find(|word| *word == RAMP)?;
    Some(words)
}

// The grades after `listed`, up to a `ramp` or the end of the line; none where the line does not begin so.
fn listed<G: Written>(heap: Global, line: &[u8]) -> Result<Listed<G>, ScriptError> {
    let mut words = words(line);
    let grades = match words.next() {
        Some(b"listed") => words
            .take_while(|word| *word != RAMP)
            .map(|word| -> Result<G, ScriptError> { Ok(grade_field(word)?) })
            .try_collect(heap)?,
        Some(b"ramp") | None => Vec::new(heap),
        Some(_) => return Err(ScriptError::Malformed(Expected::SurveyPart)),
    };
    Ok(Listed { grades })
}

// The ramp that ends the line; where there is none, one that measured nothing.
fn ramp(heap: Global, line: &[u8]) -> Result<Ramp, ScriptError> {
    let Some(mut words) = after_ramp(line) else {
        return Ok(Ramp {
            readings: Vec::new(heap),
            near: 0,
            far: 0,
        });
    };
    let near = words.next().unwrap_or(&[]);
    let far = words.next().unwrap_or(&[]);
    let readings = words
        .map(|word| -> Result<u16, ScriptError> { Ok(reading_field(word)?) })
        .try_collect(heap)?;
    Ok(Ramp {
        readings,
        near: reading_field(near)?,
        far: reading_field(far)?,
    })
}

// The survey of a percent board.
pub fn listed_and_ramp(
    heap: Global,
    line: &[u8],
) -> Result<Joined<Listed<Percent>, Ramp>, ScriptError> {
    let first = listed(heap, line)?;
    let second = ramp(heap, line)?;
    Ok(Joined { first, second })
}

// The survey of any other board: only percent has a ramp.
pub fn listed_alone<G: Written>(heap: Global, line: &[u8]) -> Result<Listed<G>, ScriptError> {
    if after_ramp(line).is_some() {
        return Err(ScriptError::Malformed(Expected::NoRamp));
    }
    listed(heap, line)
}

// Clears the board, and says so.
pub fn clear_line<G: Written, V>(
    heap: Global,
    desk: &mut Desk<G, V>,
) -> Result<String, AllocError> {
    match clear(&mut desk.statements, &mut desk.rules) {
        Ok(()) => String::from_str(heap, "board: cleared\n"),
        Err(refusal) => format!(in heap; "board: {refusal}\n"),
    }
}
