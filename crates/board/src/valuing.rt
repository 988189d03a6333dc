// What one rule says of its head, under the grades that the statements hold.
ghost use Rattle.std.specs.Prelude.{◌≡◌, ◌≤◌, IfSome, IsTrue, List, take, slice_index};
ghost use Rattle.std.specs.Iterator.{Drains, IsFinite};
ghost use Rattle.model.specs.Rules.{present, value as value_of};
ghost use Rattle.pasts.specs.Tables.{grades};
ghost use Rattle.board.specs.Values.{weighed};

use model::{Form, Rule};
use pasts::Statement;
use scales::Scale;

// The grade that the statement `s` holds, or the lowest if there is no such statement.
pub(crate) fn grade_of<G: Scale>(statements: &[Statement<G>], s: u16) -> G
    requires { 1 ≤ s }
    ensures { result ≡ grades G.meaning statements.now s }
{
    statements
        .get(s as usize - 1)
        .map_or(G::lowest(), |statement| statement.grade)
}

// What a rule with this form and weight says, once the grades of its bodies are read: the weight alone if there are none.
// It is put into each call, so that a known number of bodies makes straight code.
#[inline(always)]
fn by_form<G: Scale, I: Iterator<Item = G>>(rule: &Rule<G>, grades: I) -> G
    requires can { I.can_next grades }
    requires finite { IsFinite (I.remaining grades) }
    ensures { (gs : List G) × Drains I.next_gives grades gs × (result ≡ weighed G.meaning rule.now.form rule.now.weight gs) }
{
    match rule.form {
        Form::All => grades
            .reduce(G::meet)
            .map_or(rule.weight, |g| rule.weight.blend(g)),
        Form::Any => grades
            .reduce(G::join)
            .map_or(rule.weight, |g| rule.weight.blend(g)),
        Form::Chain => grades.fold(rule.weight, G::blend),
    }
}

// What a rule says of its head whose bodies stand in the first N places.
fn front<G: Scale, const N: usize>(statements: &[Statement<G>], rule: &Rule<G>) -> G
    requires few { N ≤ 4 }
    requires only { present rule.now.bodies ≡ take N rule.now.bodies }
    ensures { result ≡ value_of G.meaning (grades G.meaning statements.now) rule.now }
{
    by_form(
        rule,
        rule.bodies[..N].iter().map(|b| grade_of(statements, *b)),
    )
}

// What the rule says of its head, wherever its bodies stand. Kept out of `value`, whose straight ways then save no registers for it.
#[inline(never)]
fn any_value<G: Scale>(statements: &[Statement<G>], rule: &Rule<G>) -> G
    ensures { result ≡ value_of G.meaning (grades G.meaning statements.now) rule.now }
{
    let there = rule.bodies.iter().filter(|b| **b != 0);
    by_form(rule, there.map(|b| grade_of(statements, *b)))
}

// Is there a statement with the number `b`? One test for both ends.
fn is_held<G: Scale>(statements: &[Statement<G>], b: u16) -> bool
    ensures { IsTrue result → 1 ≤ b }
{
    (b as usize).wrapping_sub(1) < statements.len()
}

// How many bodies there are, if they stand in front and each names a statement. Nearly every rule has its bodies so.
// Test by test, for speed: on rules like the benchmark's a loop took up to 1.7 times as long, a table of patterns up to 1.4 times.
fn in_front<G: Scale>(statements: &[Statement<G>], bodies: &[u16; 4]) -> Option<usize>
    ensures only { IfSome result (λ n. present bodies.now ≡ take n bodies.now) }
    ensures one { IfSome result (λ _. 1 ≤ slice_index bodies.now 0) }
{
    let [a, b, c, d] = *bodies;
    if !is_held(statements, a) {
        return None;
    }
    if !is_held(statements, b) {
        return (b == 0 && c == 0 && d == 0).then_some(1);
    }
    if !is_held(statements, c) {
        return (c == 0 && d == 0).then_some(2);
    }
    if !is_held(statements, d) {
        return (d == 0).then_some(3);
    }
    Some(4)
}

// What the rule says of its head: its weight alone if it has no body, else by its form.
pub(crate) fn value<G: Scale>(statements: &[Statement<G>], rule: &Rule<G>) -> G
    ensures { result ≡ value_of G.meaning (grades G.meaning statements.now) rule.now }
{
    match in_front(statements, &rule.bodies) {
        // By any form one body says the same.
        Some(1) => rule.weight.blend(grade_of(statements, rule.bodies[0])),
        Some(2) => front::<G, 2>(statements, rule),
        Some(3) => front::<G, 3>(statements, rule),
        Some(4) => front::<G, 4>(statements, rule),
        _ => any_value(statements, rule),
    }
}
