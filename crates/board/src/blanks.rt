// What is read of the tables, also where they end.
ghost use Rattle.std.specs.Prelude.{◌≡◌, ◌-◌, ◌≤◌, slice_index_or};
ghost use Rattle.model.specs.Rules.{blank};
ghost use Rattle.pasts.specs.Tables.{entered};

use crate::numbered::at;
use model::Rule;
use pasts::Statement;
use scales::Scale;

// The statement with the number `s`.
pub(crate) fn statement_at<G: Scale>(statements: &[Statement<G>], s: u16) -> Statement<G>
    requires { 1 ≤ s }
    ensures { result ≡ entered G.meaning statements.now s }
{
    at(statements, s, Statement::unopened())
}

// The head of the rule in the place `k`, or 0 if the place is blank, as the record has it: callers compare it or hand it on.
pub(crate) fn head_at<G: Scale>(rules: &[Rule<G>], k: u16) -> u16
    requires { 1 ≤ k }
    ensures { result ≡ (slice_index_or rules.now (k - 1) (blank G.meaning)).head }
{
    at(rules, k, Rule::blank()).head
}
