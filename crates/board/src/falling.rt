// The open statements that lead to a withdrawn rule's head fall.
ghost use Rattle.std.specs.Prelude.{◌≡◌, ℕ, ◌<◌, ◌≤◌, false, length, slice_index_or};
ghost use Rattle.model.specs.Formed.{malformed};
ghost use Rattle.model.specs.Least.{On};
ghost use Rattle.pasts.specs.Tables.{unopened};
ghost use Rattle.board.specs.Flags.{fallen, Leading, Falls};

use crate::chaining::FEW;
use crate::checking::MOST_PLACES;
use crate::leading::leading_by_search;
use crate::reaching::leading_by_chains;
use model::Rule;
use pasts::{Event, Statement};
use scales::Scale;

// An open statement that leads to the head falls to the lowest grade, and is told as if a son had risen.
fn lowered<G: Scale>(x: Statement<G>, leads: bool) -> Statement<G>
    ensures { result ≡ fallen G.meaning leads x }
{
    if leads && x.mark.is_open() {
        let grade = G::lowest();
        let mark = x.mark.after(Event::SonRose);
        return Statement { grade, mark };
    }
    x
}

// The flagged statements that are open fall. By index: after a `zip` of `iter_mut` no proof knows what was written.
fn fall<G: Scale>(statements: &mut [Statement<G>], flags: &[bool; 1024])
    requires { length statements.old ≤ 1024 }
    ensures { (i : ℕ) → i < length statements.old → slice_index_or statements.new i (unopened G.meaning) ≡ fallen G.meaning (slice_index_or flags.now i false) (slice_index_or statements.old i (unopened G.meaning)) }
{
    for (i, x) in statements.iter_mut().enumerate() {
        *x = lowered(*x, flags[i]);
    }
}

// Flags on exactly the statements that lead to `head`, found in the way that suits the table's length.
fn leading<G: Scale>(rules: &[Rule<G>], head: u16) -> [bool; 1024]
    requires on { On 1024 head }
    requires formed { malformed 1024 rules.now ≡ false }
    ensures { Leading rules.now head result }
{
    // A checked table is never longer than MOST_PLACES: the second test spares callers a clause.
    if rules.len() <= FEW || MOST_PLACES < rules.len() {
        leading_by_search(rules, head)
    } else {
        leading_by_chains(rules, head)
    }
}

// Exactly the open statements that lead to `head` fall.
pub(crate) fn fall_from<G: Scale>(statements: &mut [Statement<G>], rules: &[Rule<G>], head: u16)
    requires on { On (length statements.old) head }
    requires few { length statements.old ≤ 1024 }
    requires formed { malformed (length statements.old) rules.now ≡ false }
    ensures { Falls G.meaning rules.now head statements.old statements.new }
{
    let flags = leading(rules, head);
    fall(statements, &flags);
}
