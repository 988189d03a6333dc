// Reading a file of measured lines.
ghost use Rattle.std.specs.Prelude.{◌≡◌, OnOk};
ghost use Rattle.lines.specs.declared.measured.ReadError.TheVariants.{NoMemory};
ghost use Rattle.lines.specs.Measured.{Reads, due as due_after, ends_after as ends_of, fits as fits_after, kind, reading_of, readings_after, shoulders_of};

use plaintext::{is_blank, lines, next_word, small_number};
use std::alloc::{AllocFailed, Global};
use std::error::Error;
use std::fmt;
use surveys::Ramp;

// What a line of the file says.
#[derive(Clone, Copy)]
pub enum Line {
    Skipped,
    Shoulders(u16, u16),
    Reading(u16),
    Other,
}

// What should have stood where a fault is.
#[derive(Clone, Copy, Debug, PartialEq, Eq)]
pub enum Expected {
    Shoulders,
    Reading,
}

impl fmt::Display for Expected {
    ghost use Rattle.std.specs.Prelude.{Some};
    ghost use Rattle.lines.specs.Spoken.{expected_text};

    ghost output = { λ x. Some (expected_text x) };

    fn fmt<W: fmt::Write>(&self, f: &mut fmt::Formatter<W>) -> fmt::Result {
        f.write_str(match self {
            Expected::Shoulders => "`ramp NEAR FAR`, two numbers up to 65535",
            Expected::Reading => "one reading, a number up to 65535",
        })
    }
}

// The first line, counted from 1, that is not as it should be; past the last where the file has no shoulders.
#[derive(Clone, Copy, Debug, PartialEq, Eq)]
pub struct Fault {
    pub line: usize,
    pub expected: Expected,
}

impl fmt::Display for Fault {
    ghost use Rattle.std.specs.Prelude.{Some};
    ghost use Rattle.lines.specs.Spoken.{fault_text};

    ghost output = { λ x. Some (fault_text x) };

    fn fmt<W: fmt::Write>(&self, f: &mut fmt::Formatter<W>) -> fmt::Result {
        let line = self.line;
        let due = self.expected;
        write!(f, "line {line}: expected {due}")
    }
}

#[derive(Debug, Drop)]
pub enum ReadError {
    Bad(Fault),
    NoMemory,
}

impl fmt::Display for ReadError {
    ghost use Rattle.std.specs.Prelude.{Some};
    ghost use Rattle.lines.specs.Spoken.{error_text};

    ghost output = { λ x. Some (error_text x) };

    fn fmt<W: fmt::Write>(&self, f: &mut fmt::Formatter<W>) -> fmt::Result {
        match self {
            ReadError::Bad(fault) => write!(f, "{fault}"),
            ReadError::NoMemory => f.write_str("out of memory"),
        }
    }
}

impl Error for ReadError {}

impl<T: Drop> From<AllocFailed<T>> for ReadError {
    ghost from_gives = { λ _ r. r ≡ NoMemory };

    fn from(_refused: AllocFailed<T>) -> ReadError {
        ReadError::NoMemory
    }
}

fn shoulders(line: &[u8]) -> Line
    ensures { result ≡ shoulders_of line.now }
{
    let (near, rest) = next_word(line);
    let (far, rest) = next_word(rest);
    match (small_number(near), small_number(far)) {
        (Some(near), Some(far)) if is_blank(rest) => Line::Shoulders(near, far),
        _ => Line::Other,
    }
}

fn reading(word: &[u8], rest: &[u8]) -> Line
    ensures { result ≡ reading_of word.now rest.now }
{
    match small_number(word) {
        Some(reading) if is_blank(rest) => Line::Reading(reading),
        _ => Line::Other,
    }
}

fn classify(line: &[u8]) -> Line
    ensures { result ≡ kind line.now }
{
    let (word, rest) = next_word(line);
    match word {
        [] | [b'#', ..] => Line::Skipped,
        b"ramp" => shoulders(rest),
        _ => reading(word, rest),
    }
}

// What is due on the next line that is not skipped.
fn due(ends: Option<(u16, u16)>) -> Expected
    ensures { result ≡ due_after ends }
{
    // a match that names both cases: map_or would hide that the pair is not used
    match ends {
        None => Expected::Shoulders,
        Some(_) => Expected::Reading,
    }
}

// Whether a line is what is due.
fn fits(ends: Option<(u16, u16)>, line: Line) -> bool
    ensures { result ≡ fits_after ends line }
{
    matches!(
        (ends, line),
        (_, Line::Skipped) | (None, Line::Shoulders(_, _)) | (Some(_), Line::Reading(_))
    )
}

fn ends_after(ends: Option<(u16, u16)>, line: Line) -> Option<(u16, u16)>
    ensures { result ≡ ends_of ends line }
{
    match line {
        Line::Shoulders(near, far) => Some((near, far)),
        _ => ends,
    }
}

fn note(readings: &mut Vec<u16>, line: Line) -> Result<(), AllocFailed<u16>>
    ensures { OnOk result (readings.new.items ≡ readings_after readings.old.items line) }
{
    match line {
        Line::Reading(reading) => readings.push(reading),
        _ => Ok(()),
    }
}

// The ramp that the text spells, or its first fault.
pub fn read_lines(heap: Global, text: &[u8]) -> Result<Ramp, ReadError>
    ensures { Reads text.now result }
{
    let mut ends = None;
    let mut readings = Vec::new(heap);
    let mut behind = 0;
    for (i, bytes) in lines(text).enumerate() {
        let line = classify(bytes);
        if !fits(ends, line) {
            return Err(ReadError::Bad(Fault {
                line: i + 1,
                expected: due(ends),
            }));
        }
        note(&mut readings, line)?;
        ends = ends_after(ends, line);
        behind = i + 1;
    }
    let (near, far) = ends.ok_or_else(|| {
        ReadError::Bad(Fault {
            line: behind + 1,
            expected: Expected::Shoulders,
        })
    })?;
    Ok(Ramp {
        readings,
        near,
        far,
    })
}
