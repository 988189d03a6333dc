// A call, whichever it is, and its answer.
ghost use Rattle.pasts.specs.Tables.{tables};
ghost use Rattle.pasts.specs.Calls.{Outcome};
ghost use Rattle.board.specs.Answers.{answered};

use crate::adding::add;
use crate::finishing::finish;
use crate::reading::read;
use crate::stepping::step;
use crate::wanting::want;
use crate::withdrawing::withdraw;
use model::Rule;
use pasts::{Answer, Call, Refusal, Statement};
use scales::Scale;
use surveys::Survey;

// Performs the call: each of its six functions answers in its own way, and may refuse.
fn try_call<V: Survey>(
    survey: &V,
    statements: &mut [Statement<V::Grade>],
    rules: &mut [Rule<V::Grade>],
    call: &Call<V::Grade>,
) -> Result<Answer<V::Grade>, Refusal>
    ensures { Outcome V.Grade.Scale.meaning (V.degrees survey.now) call.now (tables statements.old rules.old) (answered result) (tables statements.new rules.new) }
{
    match *call {
        Call::Add(k, rule) => {
            add(statements, rules, k, rule)?;
            Ok(Answer::Added)
        }
        Call::Withdraw(k) => {
            withdraw(statements, rules, k)?;
            Ok(Answer::Withdrawn)
        }
        Call::Want(s) => {
            want(statements, rules, s)?;
            Ok(Answer::NowWanted)
        }
        Call::Step => {
            let (s, rose) = step(survey, statements, rules)?;
            Ok(Answer::Stepped(s, rose))
        }
        Call::Finish => {
            let count = finish(survey, statements, rules)?;
            Ok(Answer::Finished(count))
        }
        Call::Read(s) => {
            let (grade, settled) = read(statements, rules, s)?;
            Ok(Answer::Graded(grade, settled))
        }
    }
}

// Performs the call on the two tables. A refusal is an answer here. (By a `match`: where a constructor whose result names a type parameter
// is handed to `unwrap_or_else`, no proof is made.)
pub fn perform<V: Survey>(
    survey: &V,
    statements: &mut [Statement<V::Grade>],
    rules: &mut [Rule<V::Grade>],
    call: &Call<V::Grade>,
) -> Answer<V::Grade>
    ensures { Outcome V.Grade.Scale.meaning (V.degrees survey.now) call.now (tables statements.old rules.old) result (tables statements.new rules.new) }
{
    match try_call(survey, statements, rules, call) {
        Ok(answer) => answer,
        Err(refusal) => Answer::Refused(refusal),
    }
}
