// Board texts that are cut short, and a text as long as a board can have.
use model::{Form, Rule};
use pasts::{Mark, Statement};
use scales::Percent;
use std::test::Fail;
use text::{load, write};

fn statement(value: u8) -> Statement<Percent> {
    Statement {
        grade: Percent { value },
        mark: Mark::Active,
    }
}

fn rule(head: u16, body: u16) -> Rule<Percent> {
    Rule {
        head,
        form: Form::Chain,
        weight: Percent { value: 80 },
        bodies: [body, 0, 0, 0],
    }
}

// Every text that lacks bytes at its end is refused with 10 at the line that they are lacking in, and the tables stay.
#[test]
fn texts_cut_short(rt: HostRuntime) -> Result<(), Fail> {
    let text: &[u8] =
        b"B    2    2\nR    1    1A   90    2    0    0    0\nR    2    2L   70    0    0    0    0\n";
    let mut statements = vec![in rt.alloc(); statement(7); 2]?;
    let mut rules = vec![in rt.alloc(); rule(2, 1); 2]?;
    for cut in 0..text.len() {
        let due = if cut < 12 { 1 } else { (cut - 12) / 38 + 2 };
        let part = text.get(0..cut).ok_or("a part of the text")?;
        let report = load(part, &mut statements, &mut rules)
            .err()
            .ok_or("a text that is cut short is refused")?
            .report();
        assert_eq!(rt; report.refusal.number(), 10);
        assert_eq!(rt; report.place.line, due);
        assert_eq!(rt; report.place.column, 1);
    }
    assert!(rt; statements.len() == 2 && rules.len() == 2);
    assert_eq!(rt; statements[1].grade.value, 7);
    assert_eq!(rt; rules[1].head, 2);
    assert!(rt; load(text, &mut statements, &mut rules).is_ok());
    assert!(rt; statements.len() == 2 && rules.len() == 2);
    assert_eq!(rt; statements[1].grade.value, 0);
    assert_eq!(rt; rules[1].weight.value, 70);
    Ok(())
}

// 4,096 rules over 1,024 statements are written, and read back.
#[test]
fn the_longest_text(rt: HostRuntime) -> Result<(), Fail> {
    let heap = rt.alloc();
    let mut statements = vec![in heap; statement(0); 1024]?;
    let rules: Vec<Rule<Percent>> = (0..4096u16)
        .map(|k| rule(k % 1024 + 1, k % 7))
        .collect(heap)?;
    let mut buffer = vec![in heap; 0u8; 155660]?;
    assert_eq!(rt;
        write(&statements, &rules, &mut buffer).unwrap_or(0),
        155660
    );
    let mut back = vec![in heap; rule(9, 9); 4096]?;
    assert_eq!(rt;
        load(&buffer, &mut statements, &mut back).unwrap_or(0),
        4096
    );
    assert!(rt; back.len() == 4096);
    assert_eq!(rt; back[4095].head, 1024);
    assert_eq!(rt; back[4095].bodies[0], 0);
    Ok(())
}
