// What ends a run before its end, and is told on standard error.
use lines::ReadError;
use pasts::Refusal;
use script::ScriptError;
use std::alloc::{AllocError, AllocFailed};
use std::{fmt, io};
use text::Report;

#[derive(Drop)]
pub(crate) enum Failure {
    // The arguments of a benchmark.
    Arguments,
    ScaleName,
    // A file that cannot be read, by its path.
    File(String, io::Error),
    Script(ScriptError),
    // A failure on a line of a script, as text: to hold the failure itself would take a box.
    OnLine(String),
    Measured(ReadError),
    Load(Report),
    Write(Refusal),
    Want(Refusal),
    Finish(Refusal),
    Withdraw(Refusal),
    ClockTooFar,
    NoMemory(AllocError),
    Io(io::Error),
}

impl fmt::Display for Failure {
    fn fmt<W: fmt::Write>(&self, f: &mut fmt::Formatter<W>) -> fmt::Result {
        match self {
            Failure::Arguments => {
                f.write_str("expected FILE N [SCALE], where N is a number from 1 to 65535")
            }
            Failure::ScaleName => {
                f.write_str("expected a scale: percent, verdict, suppliers or belief")
            }
            Failure::File(path, error) => write!(f, "{path}: {error}"),
            Failure::Script(error) => write!(f, "{error}"),
            Failure::OnLine(message) => write!(f, "{message}"),
            Failure::Measured(error) => write!(f, "{error}"),
            Failure::Load(report) => write!(f, "load: {} at {}", report.refusal, report.place),
            Failure::Write(refusal) => write!(f, "write: {refusal}"),
            Failure::Want(refusal) => write!(f, "want: {refusal}"),
            Failure::Finish(refusal) => write!(f, "finish: {refusal}"),
            Failure::Withdraw(refusal) => write!(f, "withdraw: {refusal}"),
            Failure::ClockTooFar => f.write_str("the clock ran too far"),
            Failure::NoMemory(error) => write!(f, "{error}"),
            Failure::Io(error) => write!(f, "{error}"),
        }
    }
}

impl From<ReadError> for Failure {
    fn from(error: ReadError) -> Failure {
        Failure::Measured(error)
    }
}

impl From<ScriptError> for Failure {
    fn from(error: ScriptError) -> Failure {
        Failure::Script(error)
    }
}

impl From<AllocError> for Failure {
    fn from(error: AllocError) -> Failure {
        Failure::NoMemory(error)
    }
}

impl<T: Drop> From<AllocFailed<T>> for Failure {
    fn from(refused: AllocFailed<T>) -> Failure {
        Failure::NoMemory(AllocError::from(refused))
    }
}

impl From<io::Error> for Failure {
    fn from(error: io::Error) -> Failure {
        Failure::Io(error)
    }
}
