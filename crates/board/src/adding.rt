// A rule comes to a blank place.
ghost use Rattle.std.specs.Prelude.{◌≡◌, ℕ};
ghost use Rattle.pasts.specs.Refusals.{first};
ghost use Rattle.pasts.specs.Tables.{tables, call_checks};
ghost use Rattle.pasts.specs.Calls.{Outcome};
ghost use Rattle.pasts.specs.declared.call.Answer.TheVariants.{Added};
ghost use Rattle.pasts.specs.declared.call.Call.TheVariants.{Add};
ghost use Rattle.board.specs.Answers.{refusal_of, said};

use crate::blanks::head_at;
use crate::checking::{check_bodies, check_statement, check_tables, outside};
use crate::numbered::put;
use crate::telling::tell;
use model::Rule;
use pasts::{Event, Refusal, Statement};
use scales::Scale;

// What is checked of a rule and the place that it is to come to.
fn check_add<G: Scale>(
    statements: &[Statement<G>],
    rules: &[Rule<G>],
    k: u16,
    rule: &Rule<G>,
) -> Result<(), Refusal>
    ensures { refusal_of result ≡ first (call_checks G.meaning (Add k rule.now) (tables statements.now rules.now)) }
{
    if outside(rules.len(), k as usize) {
        return Err(Refusal::NoSuchMark);
    }
    if head_at(rules, k) != 0 {
        return Err(Refusal::PlaceTaken);
    }
    check_statement(statements, rule.head)?;
    check_bodies(statements.len(), rule.bodies)
}

// The rule comes to the blank place `k`, and its head is told as if a son had risen.
pub fn add<G: Scale>(
    statements: &mut [Statement<G>],
    rules: &mut [Rule<G>],
    k: u16,
    rule: Rule<G>,
) -> Result<(), Refusal>
    ensures { (degree : ℕ → G) → Outcome G.meaning degree (Add k rule) (tables statements.old rules.old) (said Added result) (tables statements.new rules.new) }
{
    check_tables(statements, rules)?;
    check_add(statements, rules, k, &rule)?;
    put(rules, k, rule);
    tell(statements, rule.head, Event::SonRose);
    Ok(())
}
