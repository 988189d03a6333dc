// A whole past of calls, on cleared tables.
ghost use Rattle.std.specs.Prelude.{◌≡◌};
ghost use Rattle.pasts.specs.Tables.{tables};
ghost use Rattle.pasts.specs.Calls.{Outcome};
ghost use Rattle.board.specs.Replays.{Replays};

use crate::clearing::clear;
use crate::performing::perform;
use model::Rule;
use pasts::{Entry, Refusal, Statement};
use surveys::Survey;

// The entry's call is performed, and its answer written beside it.
fn perform_entry<V: Survey>(
    survey: &V,
    statements: &mut [Statement<V::Grade>],
    rules: &mut [Rule<V::Grade>],
    entry: &mut Entry<V::Grade>,
)
    ensures kept { entry.new.call ≡ entry.old.call }
    ensures answer { Outcome V.Grade.Scale.meaning (V.degrees survey.now) entry.old.call (tables statements.old rules.old) entry.new.answer (tables statements.new rules.new) }
{
    let answer = perform(survey, statements, rules, &entry.call);
    entry.answer = answer;
}

// Clears the tables, performs the calls of the entries in their order, and writes each answer beside its call.
// Refused as a clear is, and then nothing is changed.
pub fn replay<V: Survey>(
    survey: &V,
    statements: &mut [Statement<V::Grade>],
    rules: &mut [Rule<V::Grade>],
    entries: &mut [Entry<V::Grade>],
) -> Result<(), Refusal>
    ensures { Replays V.Grade.Scale.meaning (V.degrees survey.now) (tables statements.old rules.old) entries.old result (tables statements.new rules.new) entries.new }
{
    clear(statements, rules)?;
    for entry in entries.iter_mut() {
        perform_entry(survey, statements, rules, entry);
    }
    Ok(())
}
