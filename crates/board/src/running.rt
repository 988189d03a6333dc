// Steps until no statement is active, as in finishing.rt, for a large board: by chains in place of scans, with the same outcome.
ghost use Rattle.std.specs.Prelude.{◌≡◌, ℕ, ◌-◌, ◌≤◌, false, length, ◌≢◌};
ghost use Rattle.model.specs.Formed.{malformed};
ghost use Rattle.model.specs.Least.{On};
ghost use Rattle.index.specs.Words.{Has};
ghost use Rattle.pasts.specs.Tables.{tables};
ghost use Rattle.pasts.specs.Calls.{Finishes};
ghost use Rattle.board.specs.Advances.{advanced};
ghost use Rattle.board.specs.Indexed.{SonsOpen};

use crate::chaining::{Heads, Uses};
use crate::following::chain_worth;
use crate::noting::Agenda;
use crate::valuing::grade_of;
use index::NumberSet;
use model::Rule;
use pasts::Statement;
use scales::Scale;
use surveys::Survey;

// An advance of `s` by the chains of its rules and of its uses. The two chains come apart: that they are of the same rules is an equation
// over an open type of grades, which no ghost field of a pair can hold.
fn advance_noted<V: Survey>(
    survey: &V,
    own: &Heads<'_, V::Grade>,
    uses: &Uses<'_, V::Grade>,
    agenda: &mut Agenda<'_, V::Grade>,
    opened: &mut NumberSet,
    s: u16,
)
    requires on { On (length agenda.old.statements.now) s }
    requires same { uses.now.rules.now ≡ own.now.rules.now }
    requires before { Has opened.old (s - 1) → SonsOpen V.Grade.Scale.meaning own.now.rules.now agenda.old.statements.now s }
    ensures same_reference { agenda.new.statements.ghost_name ≡ agenda.old.statements.ghost_name }
    ensures after { agenda.new.statements.now ≡ advanced V.Grade.Scale.meaning (V.degrees survey.now) own.now.rules.now agenda.old.statements.now s }
    ensures opened { (i : ℕ) → (i ≢ s - 1) → Has opened.new i → Has opened.old i }
{
    let statements = &mut *agenda.statements;
    let new = chain_worth(survey, statements, own, s);
    let old = grade_of(statements, s);
    // `&`, as in `advance`
    let rose = old.at_or_below(new) & !new.at_or_below(old);
    let grade = if rose { new } else { old };
    agenda.take(s, grade);
    agenda.open_once(opened, own, s);
    if rose {
        agenda.tell_parents(uses, s);
    }
}

// Takes the active statement with the lowest number until none is active, and counts how often, as `run` does.
fn run_noted<V: Survey>(
    survey: &V,
    own: &Heads<'_, V::Grade>,
    uses: &Uses<'_, V::Grade>,
    agenda: &mut Agenda<'_, V::Grade>,
) -> u64
    requires { uses.now.rules.now ≡ own.now.rules.now }
    ensures same_reference { agenda.new.statements.ghost_name ≡ agenda.old.statements.ghost_name }
    ensures finishes { Finishes V.Grade.Scale.meaning (V.degrees survey.now) result (tables agenda.old.statements.now own.now.rules.now) (tables agenda.new.statements.now own.now.rules.now) }
{
    let mut opened = NumberSet::new();
    let mut count: u64 = 0;
    while let Some(s) = agenda.first() {
        advance_noted(survey, own, uses, agenda, &mut opened, s);
        count += 1;
    }
    count
}

// Chains the rules, notes the active statements, and runs.
pub(crate) fn run_indexed<V: Survey>(
    survey: &V,
    statements: &mut [Statement<V::Grade>],
    rules: &[Rule<V::Grade>],
) -> u64
    requires few { length statements.old ≤ 1024 }
    requires places { length rules.now ≤ 4096 }
    requires formed { malformed (length statements.old) rules.now ≡ false }
    ensures { Finishes V.Grade.Scale.meaning (V.degrees survey.now) result (tables statements.old rules.now) (tables statements.new rules.now) }
{
    let mut first = [0; 1025];
    let mut next = [0; 4096];
    let own = Heads::by_heads(rules, &mut first, &mut next);
    let mut first_use = [0; 1025];
    let mut next_use = [0; 16384];
    let uses = Uses::by_bodies(rules, &mut first_use, &mut next_use);
    let mut agenda = Agenda::new(statements);
    run_noted(survey, &own, &uses, &mut agenda)
}
