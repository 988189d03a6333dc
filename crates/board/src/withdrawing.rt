// A rule leaves its place.
ghost use Rattle.std.specs.Prelude.{◌≡◌, ℕ};
ghost use Rattle.pasts.specs.Refusals.{first};
ghost use Rattle.pasts.specs.Tables.{tables, call_checks};
ghost use Rattle.pasts.specs.Calls.{Outcome};
ghost use Rattle.pasts.specs.declared.call.Answer.TheVariants.{Withdrawn};
ghost use Rattle.pasts.specs.declared.call.Call.TheVariants.{Withdraw};
ghost use Rattle.board.specs.Answers.{refusal_of, said};

use crate::blanks::head_at;
use crate::checking::{check_tables, outside};
use crate::falling::fall_from;
use crate::numbered::put;
use model::Rule;
use pasts::{Refusal, Statement};
use scales::Scale;

// There is a rule in the place `k`.
fn check_withdraw<G: Scale>(
    statements: &[Statement<G>],
    rules: &[Rule<G>],
    k: u16,
) -> Result<(), Refusal>
    ensures { refusal_of result ≡ first (call_checks G.meaning (Withdraw k) (tables statements.now rules.now)) }
{
    if outside(rules.len(), k as usize) {
        return Err(Refusal::NoSuchMark);
    }
    if head_at(rules, k) == 0 {
        return Err(Refusal::PlaceBlank);
    }
    Ok(())
}

// The open statements that lead to the head of the rule in the place `k` fall, and the place becomes blank.
pub fn withdraw<G: Scale>(
    statements: &mut [Statement<G>],
    rules: &mut [Rule<G>],
    k: u16,
) -> Result<(), Refusal>
    ensures { (degree : ℕ → G) → Outcome G.meaning degree (Withdraw k) (tables statements.old rules.old) (said Withdrawn result) (tables statements.new rules.new) }
{
    check_tables(statements, rules)?;
    check_withdraw(statements, rules, k)?;
    let head = head_at(rules, k);
    fall_from(statements, rules, head);
    put(rules, k, Rule::blank());
    Ok(())
}
