// Reading a board text into the tables. The whole text is checked first; then the tables are cleared and filled.
ghost use Rattle.std.specs.Prelude.{◌≡◌, OnOk};
ghost use Rattle.pasts.specs.Tables.{tables};
ghost use Rattle.text.specs.Boards.{placed};
ghost use Rattle.text.specs.Faults.{judged};
ghost use Rattle.text.specs.Loads.{Loads, Decodes};
ghost use Rattle.text.specs.Rows.{rows_checks, rules_in};

use crate::faults::{Fault, Place};
use crate::limits::Limits;
use crate::reader::Reader;
use crate::rows::{next_header, next_rule};
use board::{check_lengths, clear};
use model::Rule;
use pasts::{Refusal, Statement};
use scales::Written;

// Reads the `count` rules that are left of a text into their places, as far as there are such places: into no places the
// text is only checked.
fn read_rules<G: Written>(
    rest: &[u8],
    count: u16,
    limits: Limits,
    rules: &mut [Rule<G>],
) -> Result<(), Fault>
    ensures answer { result ≡ judged (rows_checks G.coding limits.statements limits.places 0 2 count rest.now) tt }
    ensures placed { OnOk result (rules.new ≡ placed rules.old (rules_in G.Scale.meaning G.coding count rest.now)) }
{
    let mut reader = Reader::new(rest);
    let end = count as usize + 2;
    let mut last = 0;
    for line in 2..end {
        let read = next_rule(&mut reader, line, last, limits)?;
        read.put(rules);
        last = read.mark;
    }
    if !reader.rest().is_empty() {
        let place = Place {
            line: end,
            column: 1,
        };
        return Err(Fault::OnBoard(Refusal::Count, place));
    }
    Ok(())
}

// The number of rules that the text spells, which are then on a cleared board; or the text's first fault, and the tables
// as they were.
pub fn load<G: Written>(
    text: &[u8],
    statements: &mut [Statement<G>],
    rules: &mut [Rule<G>],
) -> Result<u16, Fault>
    ensures loads { Loads G.Scale.meaning G.coding text.now (tables statements.old rules.old) result (tables statements.new rules.new) }
    ensures decoded { Decodes G.Scale.meaning G.coding text.now (tables statements.old rules.old) result (tables statements.new rules.new) }
{
    check_lengths(statements, rules)?;
    let limits = Limits {
        statements: statements.len() as u16,
        places: rules.len() as u16,
    };
    let mut reader = Reader::new(text);
    let count = next_header(&mut reader, limits)?;
    let rest = reader.rest();
    let mut no_places: [Rule<G>; 0] = [];
    read_rules(rest, count, limits, &mut no_places)?;
    clear(statements, rules)?;
    read_rules(rest, count, limits, rules)?;
    Ok(count)
}
