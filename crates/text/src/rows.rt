// The lines of a board text, each held to the board: the first line with its two counts, and a rule's line.
ghost use Rattle.std.specs.Prelude.{◌≡◌, ◌+◌, ◌≤◌, not, [], ◌∷◌, take, ◌==◌, nat_lt};
ghost use Rattle.std.specs.Result.{result_map_both};
ghost use Rattle.text.specs.Faults.{judged, of_board};
ghost use Rattle.text.specs.Lines.{after};
ghost use Rattle.text.specs.declared.faults.Fault.TheVariants.{InLine};
ghost use Rattle.text.specs.Rows.{number_in, mark_checks, head_checks, body_checks, bodies_checks, bodies_in, rule_in, rule_checks, row_checks, whole_check, count_checks, header_checks, rule_count};

use crate::faults::{Fault, LineFault, Place};
use crate::limits::Limits;
use crate::lines::{HEADER, Line, ROW};
use crate::numbered::Numbered;
use crate::reader::Reader;
use model::Rule;
use pasts::Refusal;
use scales::Written;

impl<const W: usize> Line<'_, W> {
    // A fault of the board in the field that begins at a column.
    fn on_board(&self, column: usize, refusal: Refusal) -> Fault
        ensures { result ≡ of_board refusal self.now.number column }
    {
        let line = self.number;
        Fault::OnBoard(refusal, Place { line, column })
    }
}

impl Line<'_, HEADER> {
    // The statement count of the first line is the table's length.
    fn check_count(&self, statements: u16) -> Result<(), Fault>
        requires { self.now.number ≡ 1 }
        ensures { result ≡ judged (count_checks 2 (not (number_in self.now.bytes.now 2 == statements)) self.now.bytes.now) tt }
    {
        let count = self.number_at(2)?;
        if count != statements as u32 {
            return Err(self.on_board(2, Refusal::Count));
        }
        Ok(())
    }

    // The rule count of the first line.
    fn rule_count(&self, places: u16) -> Result<u16, Fault>
        requires { self.now.number ≡ 1 }
        ensures { result ≡ judged (count_checks 7 (nat_lt places (number_in self.now.bytes.now 7)) self.now.bytes.now) (number_in self.now.bytes.now 7) }
    {
        let count = self.number_at(7)?;
        if count > places as u32 {
            return Err(self.on_board(7, Refusal::Count));
        }
        Ok(count as u16)
    }
}

// Each with its own checks in their order: by one function with a closure they would be no shorter.
impl Line<'_, ROW> {
    fn mark(&self, last: u16, places: u16) -> Result<u16, Fault>
        ensures { result ≡ judged (mark_checks places last self.now.number self.now.bytes.now) (number_in self.now.bytes.now 2) }
    {
        let mark = self.number_at(2)?;
        if mark == 0 || mark > places as u32 {
            return Err(self.on_board(2, Refusal::NoSuchMark));
        }
        if mark <= last as u32 {
            return Err(self.on_board(2, Refusal::MarkOrder));
        }
        Ok(mark as u16)
    }

    fn head(&self, statements: u16) -> Result<u16, Fault>
        ensures { result ≡ judged (head_checks statements self.now.number self.now.bytes.now) (number_in self.now.bytes.now 7) }
    {
        let head = self.number_at(7)?;
        if head == 0 || head > statements as u32 {
            return Err(self.on_board(7, Refusal::NoSuchStatement));
        }
        Ok(head as u16)
    }

    // The body in the columns from `column` on, where `absent` says that the one before it is absent.
    fn body(&self, column: usize, statements: u16, absent: bool) -> Result<u16, Fault>
        requires { (1 ≤ column) × (column + 4 ≤ 37) }
        ensures { result ≡ judged (body_checks statements self.now.number column absent self.now.bytes.now) (number_in self.now.bytes.now column) }
    {
        let body = self.number_at(column)?;
        if body > statements as u32 {
            return Err(self.on_board(column, Refusal::NoSuchStatement));
        }
        if absent && body != 0 {
            return Err(self.on_board(column, Refusal::BodyAfterAbsent));
        }
        Ok(body as u16)
    }

    // One by one: no proof knows what a closure returns that changes what it captures, as whether the last was absent.
    fn bodies(&self, statements: u16) -> Result<[u16; 4], Fault>
        ensures { result ≡ judged (bodies_checks statements self.now.number self.now.bytes.now) (bodies_in self.now.bytes.now) }
    {
        let first = self.body(18, statements, false)?;
        let second = self.body(23, statements, first == 0)?;
        let third = self.body(28, statements, second == 0)?;
        let fourth = self.body(33, statements, third == 0)?;
        Ok([first, second, third, fourth])
    }

    // The rule of a line that comes after one with the mark `last`.
    fn rule<G: Written>(&self, last: u16, limits: Limits) -> Result<Numbered<G>, Fault>
        ensures { result ≡ judged (rule_checks G.coding limits.statements limits.places last self.now.number self.now.bytes.now) (rule_in G.Scale.meaning G.coding self.now.bytes.now) }
    {
        self.check_due(b'R')?;
        let mark = self.mark(last, limits.places)?;
        let head = self.head(limits.statements)?;
        let form = self.form()?;
        let weight = self.weight()?;
        let bodies = self.bodies(limits.statements)?;
        let rule = Rule {
            head,
            form,
            weight,
            bodies,
        };
        Ok(Numbered { mark, rule })
    }
}

// The bytes of the next line, with the number `line`, without its line feed.
fn next_line<'a, const W: usize>(
    reader: &mut Reader<'a>,
    line: usize,
) -> Result<&'a [u8; W], LineFault>
    ensures line { result_map_both (λ x. x.now) InLine result ≡ judged (whole_check W line reader.old ∷ []) (take W reader.old) }
    ensures rest { reader.new ≡ after W reader.old }
{
    reader.line().ok_or(LineFault::OnLine(Refusal::LineShort, Place { line, column: 1 }))
}

// The rule of the next line, with the number `number`.
pub fn next_rule<G: Written>(
    reader: &mut Reader,
    number: usize,
    last: u16,
    limits: Limits,
) -> Result<Numbered<G>, Fault>
    ensures read { result ≡ judged (row_checks G.coding limits.statements limits.places last number reader.old) (rule_in G.Scale.meaning G.coding (take 37 reader.old)) }
    ensures rest { reader.new ≡ after 37 reader.old }
{
    let bytes = next_line(reader, number)?;
    Line { number, bytes }.rule(last, limits)
}

// The rule count, once the first line is found to be as it should.
pub fn next_header(reader: &mut Reader, limits: Limits) -> Result<u16, Fault>
    ensures read { result ≡ judged (header_checks limits.statements limits.places reader.old) (rule_count reader.old) }
    ensures rest { reader.new ≡ after 11 reader.old }
{
    let bytes = next_line(reader, 1)?;
    let line = Line { number: 1, bytes };
    line.check_due(b'B')?;
    line.check_count(limits.statements)?;
    line.rule_count(limits.places)
}
