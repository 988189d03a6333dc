// Spelling a board into a buffer.
ghost use Rattle.std.specs.Prelude.{◌≡◌, ◌+◌, ◌*◌, ◌≤◌, [], ◌∷◌, ◌++◌, length, drop, not, ◌==◌, count_by};
ghost use Rattle.std.specs.List.{flat_map};
ghost use Rattle.pasts.specs.Tables.{tables};
ghost use Rattle.text.specs.Boards.{held, numbered};
ghost use Rattle.text.specs.Loads.{Writes};
ghost use Rattle.text.specs.Spelling.{header_front, row_bytes};

use crate::decimal::write_number;
use crate::lines::{HEADER, ROW};
use board::check_tables;
use model::Rule;
use pasts::{Refusal, Statement};
use scales::Written;

// Writes the first line at the front of `out`, and leaves the rest alone.
fn write_header(statements: u32, rules: u32, out: &mut [u8])
    requires { 12 ≤ length out.old }
    ensures { out.new ≡ header_front statements rules ++ (10 ∷ []) ++ drop 12 out.old }
{
    out[0] = b'B';
    write_number(statements, &mut out[1..6]);
    write_number(rules, &mut out[6..11]);
    out[HEADER] = b'\n';
}

// Writes the line of the rule with the mark at the front of `out`, and leaves the rest alone.
fn write_rule<G: Written>(mark: u16, rule: &Rule<G>, out: &mut [u8])
    requires { 38 ≤ length out.old }
    ensures { out.new ≡ row_bytes G.coding (numbered mark rule.now) ++ drop 38 out.old }
{
    let bodies = rule.bodies;
    // each field at its columns: of what chunks_exact_mut lends no proof knows what was written
    out[0] = b'R';
    write_number(mark as u32, &mut out[1..6]);
    write_number(rule.head as u32, &mut out[6..11]);
    out[11] = rule.form.letter();
    write_number(rule.weight.code() as u32, &mut out[12..17]);
    write_number(bodies[0] as u32, &mut out[17..22]);
    write_number(bodies[1] as u32, &mut out[22..27]);
    write_number(bodies[2] as u32, &mut out[27..32]);
    write_number(bodies[3] as u32, &mut out[32..37]);
    out[ROW] = b'\n';
}

// How many rules the table holds.
fn count_rules<G: Written>(rules: &[Rule<G>]) -> usize
    ensures { result ≡ count_by (λ r. not (r.head == 0)) rules.now }
{
    rules.iter().filter(|rule| rule.head != 0).count()
}

// Writes the lines of the rules at the front of `out`, and leaves the rest alone.
fn write_rules<G: Written>(rules: &[Rule<G>], out: &mut [u8])
    requires few { length rules.now ≤ 4096 }
    requires room { 38 * length (held 1 rules.now) ≤ length out.old }
    ensures { out.new ≡ flat_map (row_bytes G.coding) (held 1 rules.now) ++ drop (38 * length (held 1 rules.now)) out.old }
{
    // counted in bytes: of what chunks_exact_mut lends no proof knows what was written
    let mut at = 0;
    for (i, rule) in rules.iter().enumerate() {
        if rule.head != 0 {
            write_rule(i as u16 + 1, rule, &mut out[at..]);
            at += ROW + 1;
        }
    }
}

// Spells the board at the front of the buffer, leaves the rest of it alone, and answers the length of the text.
#[tactic(auto, using(crate::proofs::Holding::held_count))]
pub fn write<G: Written>(
    statements: &[Statement<G>],
    rules: &[Rule<G>],
    buffer: &mut [u8],
) -> Result<usize, Refusal>
    ensures { Writes G.coding (tables statements.now rules.now) buffer.old result buffer.new }
{
    check_tables(statements, rules)?;
    let held = count_rules(rules);
    let length = HEADER + 1 + (ROW + 1) * held;
    if buffer.len() < length {
        return Err(Refusal::BufferShort);
    }
    write_header(statements.len() as u32, held as u32, buffer);
    write_rules(rules, &mut buffer[HEADER + 1..]);
    Ok(length)
}
