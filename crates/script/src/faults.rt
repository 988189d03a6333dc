// Why a line of a script is not carried out.
use spelling::Expected;
use std::alloc::{AllocError, AllocFailed};
use std::error::Error;
use std::fmt;

// The line is malformed, or memory is wanting.
#[derive(Clone, Copy, Debug, PartialEq, Eq)]
pub enum ScriptError {
    Malformed(Expected),
    NoMemory,
}

impl fmt::Display for ScriptError {
    ghost use Rattle.std.specs.Prelude.{Some};
    ghost use Rattle.script.specs.Spoken.{error_text};

    ghost output = { λ x. Some (error_text x) };

    fn fmt<W: fmt::Write>(&self, f: &mut fmt::Formatter<W>) -> fmt::Result {
        match self {
            ScriptError::Malformed(due) => write!(f, "expected {due}"),
            ScriptError::NoMemory => write!(f, "out of memory"),
        }
    }
}

impl Error for ScriptError {}

impl From<Expected> for ScriptError {
    ghost use Rattle.std.specs.Prelude.{◌≡◌};
    ghost use Rattle.script.specs.declared.faults.ScriptError.TheVariants.{Malformed};

    ghost from_gives = { λ e r. r ≡ Malformed e };

    fn from(expected: Expected) -> ScriptError {
        ScriptError::Malformed(expected)
    }
}

impl From<AllocError> for ScriptError {
    ghost use Rattle.std.specs.Prelude.{◌≡◌};
    ghost use Rattle.script.specs.declared.faults.ScriptError.TheVariants.{NoMemory};

    ghost from_gives = { λ _ r. r ≡ NoMemory };

    fn from(_error: AllocError) -> ScriptError {
        ScriptError::NoMemory
    }
}

impl<T: Drop> From<AllocFailed<T>> for ScriptError {
    ghost use Rattle.std.specs.Prelude.{◌≡◌};
    ghost use Rattle.script.specs.declared.faults.ScriptError.TheVariants.{NoMemory};

    ghost from_gives = { λ _ r. r ≡ NoMemory };

    fn from(_refused: AllocFailed<T>) -> ScriptError {
        ScriptError::NoMemory
    }
}
