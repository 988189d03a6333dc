// Which statements lead to one, as in leading.rt, for a large board: flags spread by the chains of uses.
ghost use Rattle.std.specs.Prelude.{◌≡◌, ℕ, ◌+◌, ◌<◌, ◌≤◌, false, not, List, [], ◌∷◌, ◌++◌, length, take, MatchOption, count_by};
ghost use Rattle.model.specs.Formed.{malformed};
ghost use Rattle.model.specs.Least.{On};
ghost use Rattle.board.specs.Flags.{Closed, Grown, Leading};

use crate::chaining::Uses;
use crate::leading::is_flagged;
use crate::numbered::put;
use model::Rule;
use scales::Scale;
use std::marker::Model;

// Statements that have a flag, and their parents not yet. The last to come is the first to go.
#[derive(Drop)]
struct Waiting {
    numbers: [u16; 1024],
    count: usize,
}

impl Model for Waiting {
    ghost Value = { List ℕ };

    ghost view = { λ w. take w.count w.numbers };

    ghost invariant = { λ w. w.count ≤ 1024 };
}

impl Waiting {
    fn none() -> Self
        ensures { result ≡ [] }
    {
        Waiting {
            numbers: [0; 1024],
            count: 0,
        }
    }

    fn add(&mut self, s: u16)
        requires { length self.old < 1024 }
        ensures { self.new ≡ self.old ++ s ∷ [] }
    {
        self.numbers[self.count] = s;
        self.count += 1;
    }

    fn next(&mut self) -> Option<u16>
        ensures { MatchOption result ((self.old ≡ []) × (self.new ≡ [])) (λ s. self.old ≡ self.new ++ s ∷ []) }
    {
        self.count = self.count.checked_sub(1)?;
        Some(self.numbers[self.count])
    }
}

// Flags the parents of `s`. Those that had no flag come to those that wait.
fn flag_parents<G: Scale>(
    uses: &Uses<'_, G>,
    s: u16,
    flags: &mut [bool; 1024],
    waiting: &mut Waiting,
)
    requires on { On 1024 s }
    requires formed { malformed 1024 uses.now.rules.now ≡ false }
    requires fits { length waiting.old + count_by not flags.old ≤ 1024 }
    ensures grown { Grown uses.now.rules.now s flags.old waiting.old (length waiting.old) flags.new waiting.new (length waiting.new) }
    ensures closed { Closed uses.now.rules.now flags.new s }
{
    for rule in uses.of(s) {
        let p = rule.head;
        if !is_flagged(flags, p) {
            put(flags, p, true);
            waiting.add(p);
        }
    }
}

// Flags on exactly the statements that lead to `head`, by the chains of the uses.
fn leading_by_uses<G: Scale>(uses: &Uses<'_, G>, head: u16) -> [bool; 1024]
    requires on { On 1024 head }
    requires formed { malformed 1024 uses.now.rules.now ≡ false }
    ensures { Leading uses.now.rules.now head result }
{
    let mut flags = [false; 1024];
    let mut waiting = Waiting::none();
    put(&mut flags, head, true);
    waiting.add(head);
    while let Some(s) = waiting.next() {
        flag_parents(uses, s, &mut flags, &mut waiting);
    }
    flags
}

// Flags on exactly the statements that lead to `head`.
pub(crate) fn leading_by_chains<G: Scale>(rules: &[Rule<G>], head: u16) -> [bool; 1024]
    requires on { On 1024 head }
    requires places { length rules.now ≤ 4096 }
    requires formed { malformed 1024 rules.now ≡ false }
    ensures { Leading rules.now head result }
{
    let mut first = [0; 1025];
    let mut next = [0; 16384];
    let uses = Uses::by_bodies(rules, &mut first, &mut next);
    leading_by_uses(&uses, head)
}
