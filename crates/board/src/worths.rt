// The worth of a statement: what the survey and the rules say of it.
ghost use Rattle.std.specs.Prelude.{◌≡◌};
ghost use Rattle.model.specs.Least.{worth as worth_of};
ghost use Rattle.pasts.specs.Tables.{grades};

use crate::valuing::value;
use model::Rule;
use pasts::Statement;
use scales::Scale;
use surveys::Survey;

// The join of the degree of `s` and of the values of the rules with head `s`. Any tables and any `s` will do.
pub fn worth<V: Survey>(
    survey: &V,
    statements: &[Statement<V::Grade>],
    rules: &[Rule<V::Grade>],
    s: u16,
) -> V::Grade
    ensures { result ≡ worth_of V.Grade.Scale.meaning (V.degrees survey.now) rules.now (grades V.Grade.Scale.meaning statements.now) s }
{
    let mut total = survey.degree(s);
    for rule in rules {
        if rule.head == s {
            total = total.join(value(statements, rule));
        }
    }
    total
}
