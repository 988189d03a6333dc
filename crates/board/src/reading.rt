// What an open statement has so far.
ghost use Rattle.std.specs.Prelude.{◌≡◌, ℕ, ◌≤◌, not, length};
ghost use Rattle.pasts.specs.Refusals.{first};
ghost use Rattle.pasts.specs.Tables.{tables, call_checks, some_active};
ghost use Rattle.pasts.specs.Calls.{Outcome};
ghost use Rattle.pasts.specs.declared.call.Call.TheVariants.{Read};
ghost use Rattle.board.specs.Answers.{refusal_of, graded};

use crate::blanks::statement_at;
use crate::checking::{check_statement, check_tables};
use crate::stepping::next_active;
use crate::valuing::grade_of;
use model::Rule;
use pasts::{Refusal, Statement};
use scales::Scale;

// The statement `s` is there and open.
fn check_read<G: Scale>(
    statements: &[Statement<G>],
    rules: &[Rule<G>],
    s: u16,
) -> Result<(), Refusal>
    ensures { refusal_of result ≡ first (call_checks G.meaning (Read s) (tables statements.now rules.now)) }
{
    check_statement(statements, s)?;
    if !statement_at(statements, s).mark.is_open() {
        return Err(Refusal::NotOpen);
    }
    Ok(())
}

// Whether no statement is active.
fn settled<G: Scale>(statements: &[Statement<G>]) -> bool
    requires { length statements.now ≤ 1024 }
    ensures { result ≡ not (some_active statements.now) }
{
    next_active(statements).is_none()
}

// Answers the grade of the open statement `s`, and whether no statement is active: a pair, as the interface has it.
pub fn read<G: Scale>(
    statements: &[Statement<G>],
    rules: &[Rule<G>],
    s: u16,
) -> Result<(G, bool), Refusal>
    ensures { (degree : ℕ → G) → Outcome G.meaning degree (Read s) (tables statements.now rules.now) (graded result) (tables statements.now rules.now) }
{
    check_tables(statements, rules)?;
    check_read(statements, rules, s)?;
    let grade = grade_of(statements, s);
    Ok((grade, settled(statements)))
}
