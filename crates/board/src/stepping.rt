// The active statement with the lowest number is taken.
ghost use Rattle.std.specs.Prelude.{◌≡◌, ◌-◌, ◌≤◌, length, set};
ghost use Rattle.model.specs.Least.{On};
ghost use Rattle.pasts.specs.Marks.{answered};
ghost use Rattle.pasts.specs.Tables.{tables, entered};
ghost use Rattle.pasts.specs.Calls.{Outcome};
ghost use Rattle.pasts.specs.declared.call.Call.TheVariants.{Step};
ghost use Rattle.pasts.specs.declared.statement.Event.TheVariants.{Taken};
ghost use Rattle.board.specs.Answers.{stepped};
ghost use Rattle.board.specs.Advances.{Picks, risen, advanced};

use crate::blanks::statement_at;
use crate::checking::check_tables;
use crate::numbered::put;
use crate::telling::{open_sons, tell_parents};
use crate::valuing::grade_of;
use crate::worths::worth;
use model::Rule;
use pasts::{Event, Refusal, Statement};
use scales::Scale;
use surveys::Survey;

// The lowest number of an active statement.
pub(crate) fn next_active<G: Scale>(statements: &[Statement<G>]) -> Option<u16>
    requires { length statements.now ≤ 1024 }
    ensures { Picks G.meaning statements.now result }
{
    let i = statements.iter().position(|x| x.mark.is_active())?;
    Some(i as u16 + 1)
}

// The statement `s`, if there is one, is taken, with this grade.
pub(crate) fn take<G: Scale>(statements: &mut [Statement<G>], s: u16, grade: G)
    requires { 1 ≤ s }
    ensures { statements.new ≡ set statements.old (s - 1) (record { grade = grade; mark = answered (entered G.meaning statements.old s).mark Taken }) }
{
    let mark = statement_at(statements, s).mark.after(Event::Taken);
    put(statements, s, Statement { grade, mark });
}

// The statement `s` takes its worth if that is strictly above its grade; its sons are opened and, if it rose, its
// parents are told.
pub(crate) fn advance<V: Survey>(
    survey: &V,
    statements: &mut [Statement<V::Grade>],
    rules: &[Rule<V::Grade>],
    s: u16,
) -> bool
    requires { On (length statements.old) s }
    ensures rose { result ≡ risen V.Grade.Scale.meaning (V.degrees survey.now) rules.now statements.old s }
    ensures after { statements.new ≡ advanced V.Grade.Scale.meaning (V.degrees survey.now) rules.now statements.old s }
{
    let new = worth(survey, statements, rules, s);
    let old = grade_of(statements, s);
    // `&`: both tests are short, and no branch lies between them
    let rose = old.at_or_below(new) & !new.at_or_below(old);
    let grade = if rose { new } else { old };
    take(statements, s, grade);
    open_sons(statements, rules, s);
    if rose {
        tell_parents(statements, rules, s);
    }
    rose
}

// Answers the statement that was taken, and whether it rose: a pair, as the interface has it.
pub fn step<V: Survey>(
    survey: &V,
    statements: &mut [Statement<V::Grade>],
    rules: &[Rule<V::Grade>],
) -> Result<(u16, bool), Refusal>
    ensures { Outcome V.Grade.Scale.meaning (V.degrees survey.now) Step (tables statements.old rules.now) (stepped result) (tables statements.new rules.now) }
{
    check_tables(statements, rules)?;
    let s = next_active(statements).ok_or(Refusal::NothingActive)?;
    let rose = advance(survey, statements, rules, s);
    Ok((s, rose))
}
