// A statement is asked for.
ghost use Rattle.std.specs.Prelude.{ℕ};
ghost use Rattle.pasts.specs.Tables.{tables};
ghost use Rattle.pasts.specs.Calls.{Outcome};
ghost use Rattle.pasts.specs.declared.call.Answer.TheVariants.{NowWanted};
ghost use Rattle.pasts.specs.declared.call.Call.TheVariants.{Want};
ghost use Rattle.board.specs.Answers.{said};

use crate::checking::{check_statement, check_tables};
use crate::telling::tell;
use model::Rule;
use pasts::{Event, Refusal, Statement};
use scales::Scale;

// The statement `s` becomes active if it is unopened.
pub fn want<G: Scale>(
    statements: &mut [Statement<G>],
    rules: &[Rule<G>],
    s: u16,
) -> Result<(), Refusal>
    ensures { (degree : ℕ → G) → Outcome G.meaning degree (Want s) (tables statements.old rules.now) (said NowWanted result) (tables statements.new rules.now) }
{
    check_tables(statements, rules)?;
    check_statement(statements, s)?;
    tell(statements, s, Event::Wanted);
    Ok(())
}
