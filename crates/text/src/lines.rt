// A line of a text, and its letter and fields at their columns.
ghost use Rattle.std.specs.Prelude.{◌≡◌, ◌+◌, ◌≤◌, [], ◌∷◌, slice_index};
ghost use Rattle.text.specs.Faults.{line_risen, judged};
ghost use Rattle.text.specs.Fields.{number_checks, form_of, form_checks, weight_of, weight_checks};
ghost use Rattle.text.specs.Rows.{five, number_in, due_check};

use crate::faults::{LineFault, Place};
use crate::fields::{read_form, read_number, read_weight};
use model::Form;
use pasts::Refusal;
use scales::Written;

// The width of the lines, without their line feeds: of the first one, and of a rule's.
pub const HEADER: usize = 11;

pub const ROW: usize = 37;

// The bytes of a line before its line feed, and its number, counted from 1. No line is wider than a rule's.
#[derive(Clone, Copy)]
pub struct Line<'a, const W: usize> {
    pub number: usize,
    pub bytes: &'a [u8; W],
    ghost narrow: { W ≤ 37 },
}

impl<const W: usize> Line<'_, W> {
    // Column 1 has the due letter.
    pub fn check_due(&self, letter: u8) -> Result<(), LineFault>
        requires { 1 ≤ W }
        ensures { line_risen result ≡ judged (due_check letter self.now.number self.now.bytes.now ∷ []) tt }
    {
        if self.bytes[0] != letter {
            let place = Place {
                line: self.number,
                column: 1,
            };
            return Err(LineFault::OnLine(Refusal::Letter, place));
        }
        Ok(())
    }

    // The five columns from `column` on.
    fn field(&self, column: usize) -> &[u8; 5]
        requires { (1 ≤ column) × (column + 4 ≤ W) }
        ensures { result.now ≡ five column self.now.bytes.now }
    {
        // a slice of all the bytes first: cut from the array itself, a goal was left open
        let bytes = self.bytes;
        let bytes = &bytes[..];
        bytes[column - 1..].first_chunk().unwrap()
    }

    // The number in the five columns from `column` on.
    pub fn number_at(&self, column: usize) -> Result<u32, LineFault>
        requires { (1 ≤ column) × (column + 4 ≤ W) }
        ensures { line_risen result ≡ judged (number_checks (five column self.now.bytes.now) self.now.number column) (number_in self.now.bytes.now column) }
    {
        let line = self.number;
        Ok(read_number(self.field(column), Place { line, column })?)
    }
}

impl Line<'_, ROW> {
    // The form whose letter stands in column 12.
    pub fn form(&self) -> Result<Form, LineFault>
        ensures { line_risen result ≡ judged (form_checks (slice_index self.now.bytes.now 11) self.now.number 12) (form_of (slice_index self.now.bytes.now 11)) }
    {
        let place = Place {
            line: self.number,
            column: 12,
        };
        Ok(read_form(self.bytes[11], place)?)
    }

    // The weight whose code stands in the columns from 13 on.
    pub fn weight<G: Written>(&self) -> Result<G, LineFault>
        ensures { line_risen result ≡ judged (weight_checks G.coding (five 13 self.now.bytes.now) self.now.number 13) (weight_of G.Scale.meaning G.coding (five 13 self.now.bytes.now)) }
    {
        let place = Place {
            line: self.number,
            column: 13,
        };
        Ok(read_weight(self.field(13), place)?)
    }
}
