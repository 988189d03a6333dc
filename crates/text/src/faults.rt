// What is amiss in a text, and where. A fault of a field rises to its line, and a fault of a line to its board; each keeps
// its refusal and its place.
ghost use Rattle.std.specs.Prelude.{◌≡◌};
ghost use Rattle.text.specs.Faults.{at_no_place, report as reported};
ghost use Rattle.text.specs.declared.faults.LineFault.TheVariants.{InField};
ghost use Rattle.text.specs.declared.faults.Fault.TheVariants.{InLine};

use pasts::Refusal;
use std::error::Error;
use std::fmt;

// Lines and columns count from 1. What is amiss with the tables stands at line 0, column 0.
#[derive(Clone, Copy, Debug, PartialEq, Eq)]
pub struct Place {
    pub line: usize,
    pub column: usize,
}

#[derive(Clone, Copy, Debug, PartialEq, Eq)]
pub struct FieldFault {
    pub refusal: Refusal,
    pub place: Place,
}

#[derive(Clone, Copy, Debug, PartialEq, Eq)]
pub enum LineFault {
    OnLine(Refusal, Place),
    InField(FieldFault),
}

#[derive(Clone, Copy, Debug, PartialEq, Eq)]
pub enum Fault {
    OnBoard(Refusal, Place),
    InLine(LineFault),
}

// Where a fault comes from.
#[derive(Clone, Copy, Debug, PartialEq, Eq)]
pub enum Layer {
    Field,
    Line,
    Board,
}

#[derive(Clone, Copy, Debug, PartialEq, Eq)]
pub struct Report {
    pub refusal: Refusal,
    pub layer: Layer,
    pub place: Place,
}

impl From<FieldFault> for LineFault {
    ghost from_gives = { λ f r. r ≡ InField f };

    fn from(f: FieldFault) -> LineFault {
        LineFault::InField(f)
    }
}

impl From<LineFault> for Fault {
    ghost from_gives = { λ f r. r ≡ InLine f };

    fn from(f: LineFault) -> Fault {
        Fault::InLine(f)
    }
}

// A refusal of the tables.
impl From<Refusal> for Fault {
    ghost from_gives = { λ f r. r ≡ at_no_place f };

    fn from(f: Refusal) -> Fault {
        Fault::OnBoard(f, Place { line: 0, column: 0 })
    }
}

impl Fault {
    // Its number, as a refusal, its layer and its place.
    pub fn report(self) -> Report
        ensures { result ≡ reported self }
    {
        match self {
            Fault::OnBoard(refusal, place) => Report {
                refusal,
                layer: Layer::Board,
                place,
            },
            Fault::InLine(LineFault::OnLine(refusal, place)) => Report {
                refusal,
                layer: Layer::Line,
                place,
            },
            Fault::InLine(LineFault::InField(f)) => Report {
                refusal: f.refusal,
                layer: Layer::Field,
                place: f.place,
            },
        }
    }
}

impl fmt::Display for Place {
    ghost use Rattle.std.specs.Prelude.{Some};
    ghost use Rattle.text.specs.Spoken.{place_text};

    ghost output = { λ p. Some (place_text p) };

    fn fmt<W: fmt::Write>(&self, f: &mut fmt::Formatter<W>) -> fmt::Result {
        write!(f, "line {} column {}", self.line, self.column)
    }
}

impl fmt::Display for Layer {
    ghost use Rattle.std.specs.Prelude.{Some};
    ghost use Rattle.text.specs.Spoken.{layer_text};

    ghost output = { λ l. Some (layer_text l) };

    fn fmt<W: fmt::Write>(&self, f: &mut fmt::Formatter<W>) -> fmt::Result {
        f.write_str(match self {
            Layer::Field => "field",
            Layer::Line => "line",
            Layer::Board => "board",
        })
    }
}

impl fmt::Display for Report {
    ghost use Rattle.std.specs.Prelude.{Some};
    ghost use Rattle.text.specs.Spoken.{report_text};

    ghost output = { λ r. Some (report_text r) };

    fn fmt<W: fmt::Write>(&self, f: &mut fmt::Formatter<W>) -> fmt::Result {
        write!(f, "{} at {} {}", self.refusal, self.layer, self.place)
    }
}

impl fmt::Display for Fault {
    ghost use Rattle.std.specs.Prelude.{Some};
    ghost use Rattle.text.specs.Faults.{report};
    ghost use Rattle.text.specs.Spoken.{report_text};

    ghost output = { λ x. Some (report_text (report x)) };

    fn fmt<W: fmt::Write>(&self, f: &mut fmt::Formatter<W>) -> fmt::Result {
        write!(f, "{}", self.report())
    }
}

impl Error for Fault {}
