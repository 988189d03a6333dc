// What a script shows of a board: its tables as they are, and the grades for a person.
use crate::desks::Desk;
use model::Rule;
use pasts::Statement;
use plaintext::bar;
use scales::Written;
use std::alloc::{AllocError, Global};

fn push_statements<G: Written>(
    text: &mut String,
    statements: &[Statement<G>],
) -> Result<(), AllocError> {
    for (number, statement) in (1usize..).zip(statements.iter()) {
        let code = statement.grade.code();
        let mark = statement.mark;
        writeln!(text, "s {number} {code} {mark}")?;
    }
    Ok(())
}

// Blank places are left out.
fn push_rules<G: Written>(text: &mut String, rules: &[Rule<G>]) -> Result<(), AllocError> {
    for (mark, rule) in (1usize..).zip(rules.iter()) {
        if rule.head != 0 {
            let head = rule.head;
            let form = char::from(rule.form.letter());
            let weight = rule.weight.code();
            let [a, b, c, d] = rule.bodies;
            writeln!(text, "p {mark} {head} {form} {weight} {a} {b} {c} {d}")?;
        }
    }
    Ok(())
}

// A line for each statement, then one for each place that is not blank.
pub fn tables<G: Written, V>(heap: Global, desk: &Desk<G, V>) -> Result<String, AllocError> {
    let mut text = String::new(heap);
    push_statements(&mut text, &desk.statements)?;
    push_rules(&mut text, &desk.rules)?;
    Ok(text)
}

// The open statements with their grades, and whether any is still to be evaluated.
pub fn grades<G: Written, V>(heap: Global, desk: &Desk<G, V>) -> Result<String, AllocError> {
    let mut text = String::new(heap);
    for (number, statement) in (1usize..).zip(desk.statements.iter()) {
        if statement.mark.is_open() {
            let grade = statement.grade;
            let code = grade.code();
            let mark = bar(heap, grade.level(), G::height())?;
            writeln!(text, "{number:>5} {code:>6} |{mark:<20}|")?;
        }
    }
    match desk.waiting() {
        0 => writeln!(text, "settled")?,
        waiting => writeln!(text, "unsettled: {waiting} to evaluate")?,
    }
    Ok(text)
}
