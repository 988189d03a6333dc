// A desk made at its size, before its first call.
use pasts::{Answer, Call, Refusal};
use scales::Percent;
use script::{Desk, Size};
use std::alloc::{AllocError, Global};
use std::test::Fail;
use surveys::Listed;

fn desk(
    heap: Global,
    statements: usize,
    places: usize,
) -> Result<Desk<Percent, Listed<Percent>>, AllocError> {
    let survey = Listed {
        grades: Vec::new(heap),
    };
    Desk::new(heap, survey, Size { statements, places })
}

#[test]
fn a_new_desk_is_blank(rt: HostRuntime) -> Result<(), Fail> {
    let mut desk = desk(rt.alloc(), 2, 3)?;
    assert!(rt; desk.statements.len() == 2 && desk.rules.len() == 3);
    assert!(rt; desk.statements.iter().all(|x| !x.mark.is_open()));
    assert!(rt; desk.rules.iter().all(|rule| rule.head == 0));
    assert_eq!(rt; desk.waiting(), 0);
    assert!(rt; matches!(desk.call(&Call::Want(2)), Answer::NowWanted));
    assert_eq!(rt; desk.waiting(), 1);
    assert!(rt; matches!(desk.call(&Call::Finish), Answer::Finished(1)));
    assert_eq!(rt; desk.waiting(), 0);
    Ok(())
}

#[test]
fn a_desk_with_no_statements_refuses(rt: HostRuntime) -> Result<(), Fail> {
    let mut desk = desk(rt.alloc(), 0, 1)?;
    assert!(rt;
        matches!(
            desk.call(&Call::Step),
            Answer::Refused(Refusal::TableLength)
        )
    );
    assert_eq!(rt; desk.waiting(), 0);
    Ok(())
}
