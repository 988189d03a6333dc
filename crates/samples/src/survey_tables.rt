// Degrees at statement 0, within a table and beyond it.
use scales::{Percent, Scale, Verdict, Written};
use std::test::Fail;
use surveys::{Joined, Listed, Ramp, Survey};

#[test]
fn listed(rt: HostRuntime) -> Result<(), Fail> {
    let survey = Listed {
        grades: [Verdict::True, Verdict::Unknown].to_vec(rt.alloc())?,
    };
    assert_eq!(rt; survey.degree(0).code(), 0);
    assert_eq!(rt; survey.degree(1).code(), 3);
    assert_eq!(rt; survey.degree(2).code(), 1);
    assert_eq!(rt; survey.degree(3).code(), 0);
    assert_eq!(rt; survey.degree(65535).code(), 0);
    Ok(())
}

#[test]
fn no_survey(rt: HostRuntime) {
    let survey: Listed<Verdict> = Listed {
        grades: Vec::new(rt.alloc()),
    };
    assert_eq!(rt; survey.degree(0).code(), 0);
    assert_eq!(rt; survey.degree(1).code(), 0);
}

#[test]
fn held_above_100_in_a_table(rt: HostRuntime) -> Result<(), Fail> {
    let survey = Listed {
        grades: [Percent { value: 250 }].to_vec(rt.alloc())?,
    };
    assert_eq!(rt; survey.degree(1).points(), 100);
    Ok(())
}

fn graded(near: u16, far: u16, readings: Vec<u16>, statement: u16) -> u8 {
    let ramp = Ramp {
        readings,
        near,
        far,
    };
    ramp.degree(statement).points()
}

#[test]
fn ramp_and_its_edges(rt: HostRuntime) -> Result<(), Fail> {
    let heap = rt.alloc();
    assert_eq!(rt; graded(10000, 14000, [0, 12500].to_vec(heap)?, 0), 0);
    assert_eq!(rt; graded(10000, 14000, [0, 12500].to_vec(heap)?, 1), 0);
    assert_eq!(rt; graded(10000, 14000, [0, 12500].to_vec(heap)?, 2), 37);
    assert_eq!(rt; graded(10000, 14000, [0, 12500].to_vec(heap)?, 3), 0);
    assert_eq!(rt; graded(0, 65535, [65534].to_vec(heap)?, 1), 0);
    assert_eq!(rt; graded(0, 65535, [1].to_vec(heap)?, 1), 99);
    Ok(())
}

#[test]
fn equal_and_crossed_shoulders(rt: HostRuntime) -> Result<(), Fail> {
    let heap = rt.alloc();
    assert_eq!(rt; graded(50, 50, [50].to_vec(heap)?, 1), 100);
    assert_eq!(rt; graded(50, 50, [51].to_vec(heap)?, 1), 0);
    assert_eq!(rt; graded(60, 40, [50].to_vec(heap)?, 1), 100);
    assert_eq!(rt; graded(60, 40, [60].to_vec(heap)?, 1), 100);
    assert_eq!(rt; graded(60, 40, [61].to_vec(heap)?, 1), 0);
    Ok(())
}

#[test]
fn joined(rt: HostRuntime) -> Result<(), Fail> {
    let heap = rt.alloc();
    let survey = Joined {
        first: Listed {
            grades: [Percent { value: 40 }, Percent { value: 10 }].to_vec(heap)?,
        },
        second: Ramp {
            readings: [15, 12, 5].to_vec(heap)?,
            near: 10,
            far: 20,
        },
    };
    assert_eq!(rt; survey.degree(1).points(), 50);
    assert_eq!(rt; survey.degree(2).points(), 80);
    assert_eq!(rt; survey.degree(3).points(), 100);
    assert_eq!(rt; survey.degree(4).points(), 0);
    Ok(())
}
