// Steps until no statement is active: by scans of the tables on a small board, else by chains (running.rt). There are two ways, since on
// a board of up to 16 statements and places the scans take 0.7 microseconds where the chains take 2.6; and they are no twins: a chain is
// kept beside the tables, with facts of its own.
ghost use Rattle.std.specs.Prelude.{◌≡◌, ◌≤◌, false, length};
ghost use Rattle.model.specs.Formed.{malformed};
ghost use Rattle.pasts.specs.Tables.{tables};
ghost use Rattle.pasts.specs.Calls.{Finishes, Outcome};
ghost use Rattle.pasts.specs.declared.call.Call.TheVariants.{Finish};
ghost use Rattle.board.specs.Answers.{finished};

use crate::chaining::FEW;
use crate::checking::check_tables;
use crate::running::run_indexed;
use crate::stepping::{advance, next_active};
use model::Rule;
use pasts::{Refusal, Statement};
use surveys::Survey;

// Takes the active statement with the lowest number until none is active, and counts how often. No iterator can lend the tables to a
// step and find the next statement in them.
fn run<V: Survey>(
    survey: &V,
    statements: &mut [Statement<V::Grade>],
    rules: &[Rule<V::Grade>],
) -> u64
    requires { length statements.old ≤ 1024 }
    ensures { Finishes V.Grade.Scale.meaning (V.degrees survey.now) result (tables statements.old rules.now) (tables statements.new rules.now) }
{
    let mut count: u64 = 0;
    while let Some(s) = next_active(statements) {
        advance(survey, statements, rules, s);
        count += 1;
    }
    count
}

// Runs in the way that suits the board's size.
fn run_either<V: Survey>(
    survey: &V,
    statements: &mut [Statement<V::Grade>],
    rules: &[Rule<V::Grade>],
) -> u64
    requires few { length statements.old ≤ 1024 }
    requires places { length rules.now ≤ 4096 }
    requires formed { malformed (length statements.old) rules.now ≡ false }
    ensures { Finishes V.Grade.Scale.meaning (V.degrees survey.now) result (tables statements.old rules.now) (tables statements.new rules.now) }
{
    if statements.len() <= FEW && rules.len() <= FEW {
        return run(survey, statements, rules);
    }
    run_indexed(survey, statements, rules)
}

// Answers the number of steps.
pub fn finish<V: Survey>(
    survey: &V,
    statements: &mut [Statement<V::Grade>],
    rules: &[Rule<V::Grade>],
) -> Result<u64, Refusal>
    ensures { Outcome V.Grade.Scale.meaning (V.degrees survey.now) Finish (tables statements.old rules.now) (finished result) (tables statements.new rules.now) }
{
    check_tables(statements, rules)?;
    Ok(run_either(survey, statements, rules))
}
