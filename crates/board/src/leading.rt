// Which statements lead to one: flags that spread from it, from son to parent.
ghost use Rattle.std.specs.Prelude.{◌≡◌, ◌≤◌, false};
ghost use Rattle.std.specs.List.{list_any};
ghost use Rattle.model.specs.Formed.{malformed};
ghost use Rattle.model.specs.Least.{On};
ghost use Rattle.board.specs.Flags.{flagged, spreading, Leading};
ghost use Rattle.board.specs.Telling.{there};

use crate::numbered::at;
use model::Rule;
use scales::Scale;

pub(crate) fn is_flagged(flags: &[bool], s: u16) -> bool
    requires { 1 ≤ s }
    ensures { result ≡ flagged flags.now s }
{
    at(flags, s, false)
}

// Whether one of the bodies has a flag.
fn touches(flags: &[bool], bodies: [u16; 4]) -> bool
    ensures { result ≡ list_any (there (flagged flags.now)) bodies }
{
    bodies.iter().any(|b| *b != 0 && is_flagged(flags, *b))
}

// The head of a rule that has a flagged body, while the head has no flag yet. A loop: by `find` and `map` a goal was left that takes a
// longer proof than the loop's.
fn next_parent<G: Scale>(rules: &[Rule<G>], flags: &[bool]) -> Option<u16>
    ensures { result ≡ spreading flags.now rules.now }
{
    for rule in rules {
        if rule.head != 0 && !is_flagged(flags, rule.head) && touches(flags, rule.bodies) {
            return Some(rule.head);
        }
    }
    None
}

// Flags on exactly the statements that lead to `head`.
pub(crate) fn leading_by_search<G: Scale>(rules: &[Rule<G>], head: u16) -> [bool; 1024]
    requires on { On 1024 head }
    requires formed { malformed 1024 rules.now ≡ false }
    ensures { Leading rules.now head result }
{
    let mut flags = [false; 1024];
    flags[head as usize - 1] = true;
    while let Some(p) = next_parent(rules, &flags) {
        flags[p as usize - 1] = true;
    }
    flags
}
