// What is checked before a call: the tables, and the numbers that several calls ask for.
ghost use Rattle.std.specs.Prelude.{◌≡◌, false, ◌||◌, [], ◌∷◌, length, nat_lt};
ghost use Rattle.std.specs.List.{list_any};
ghost use Rattle.model.specs.Formed.{gap as has_gap, body_above, malformed_place};
ghost use Rattle.pasts.specs.Refusals.{first, check as case_of, outside as out_of};
ghost use Rattle.pasts.specs.Tables.{tables, length_checks, table_checks, body_checks};
ghost use Rattle.pasts.specs.declared.refusal.Refusal.TheVariants.{NoSuchStatement};
ghost use Rattle.board.specs.Answers.{refusal_of};
ghost use Rattle.board.specs.Misplaced.{misplaced_after, misplaced_here};

use model::Rule;
use pasts::{Refusal, Statement};

// The longest tables of statements and of places.
const MOST_STATEMENTS: usize = 1024;

pub(crate) const MOST_PLACES: usize = 4096;

// Whether `k` is 0 or above `most`.
pub(crate) fn outside(most: usize, k: usize) -> bool
    ensures { result ≡ out_of most k }
{
    k == 0 || most < k
}

// Whether one of three bodies is above `count` or comes after an absent one.
fn one_misplaced(a: u16, b: u16, c: u16, count: usize) -> bool
    ensures { result ≡ (nat_lt count a || (misplaced_after count a b || misplaced_after count b c)) }
{
    if count < a as usize {
        return true;
    }
    if b == 0 {
        return c != 0;
    }
    a == 0 || count < b as usize || count < c as usize
}

// The same of four, the last of which is there, so that none may be absent.
fn any_misplaced(bodies: &[u16; 4], count: usize) -> bool
    ensures { result ≡ list_any (misplaced_here count) bodies.now }
{
    bodies.iter().any(|b| *b == 0 || count < *b as usize)
}

// Whether a body is above `count` or comes after an absent one. Few rules have four bodies: the others need no loop.
fn ill_placed(bodies: &[u16; 4], count: usize) -> bool
    ensures { result ≡ (body_above count bodies.now || has_gap bodies.now) }
{
    let [a, b, c, d] = *bodies;
    if d == 0 {
        return one_misplaced(a, b, c, count);
    }
    any_misplaced(bodies, count)
}

// Whether there is a rule in the place whose head or a body is above `count`, or whose bodies have a gap.
fn malformed<G: Copy>(rule: &Rule<G>, count: usize) -> bool
    ensures { result ≡ malformed_place count rule.now }
{
    rule.head != 0 && (count < rule.head as usize || ill_placed(&rule.bodies, count))
}

fn any_malformed<G: Copy>(rules: &[Rule<G>], count: usize) -> bool
    ensures { result ≡ list_any (malformed_place count) rules.now }
{
    rules.iter().any(|rule| malformed(rule, count))
}

// The tables are neither empty nor too long.
pub fn check_lengths<G: Copy>(statements: &[Statement<G>], rules: &[Rule<G>]) -> Result<(), Refusal>
    ensures { refusal_of result ≡ first (length_checks (tables statements.now rules.now)) }
{
    if outside(MOST_STATEMENTS, statements.len()) || outside(MOST_PLACES, rules.len()) {
        return Err(Refusal::TableLength);
    }
    Ok(())
}

// What every call checks first.
pub fn check_tables<G: Copy>(statements: &[Statement<G>], rules: &[Rule<G>]) -> Result<(), Refusal>
    ensures { refusal_of result ≡ first (table_checks (tables statements.now rules.now)) }
{
    check_lengths(statements, rules)?;
    if any_malformed(rules, statements.len()) {
        return Err(Refusal::MalformedPlace);
    }
    Ok(())
}

// There is a statement `s`.
pub(crate) fn check_statement<G: Copy>(statements: &[Statement<G>], s: u16) -> Result<(), Refusal>
    ensures { refusal_of result ≡ first (case_of NoSuchStatement (out_of (length statements.now) s) ∷ []) }
{
    if outside(statements.len(), s as usize) {
        return Err(Refusal::NoSuchStatement);
    }
    Ok(())
}

// The bodies of a new rule, from the left.
pub(crate) fn check_bodies(count: usize, bodies: [u16; 4]) -> Result<(), Refusal>
    ensures { refusal_of result ≡ first (body_checks count false bodies) }
{
    let mut absent = false;
    for b in bodies {
        if count < b as usize {
            return Err(Refusal::NoSuchStatement);
        }
        if absent && b != 0 {
            return Err(Refusal::BodyAfterAbsent);
        }
        absent = b == 0;
    }
    Ok(())
}
