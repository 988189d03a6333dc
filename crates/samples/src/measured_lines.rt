// Files of measured lines, and the first fault of bad ones.
use lines::{Expected, Fault, ReadError, Standing, count, read_lines};
use std::alloc::Global;
use std::test::Fail;

fn fault(heap: Global, text: &str) -> Result<Option<Fault>, Fail> {
    match read_lines(heap, text.as_bytes()) {
        Ok(_) => Ok(None),
        Err(ReadError::Bad(fault)) => Ok(Some(fault)),
        Err(ReadError::NoMemory) => Err(Fail::new("there is memory")),
    }
}

fn shoulders_due(line: usize) -> Option<Fault> {
    Some(Fault {
        line,
        expected: Expected::Shoulders,
    })
}

fn reading_due(line: usize) -> Option<Fault> {
    Some(Fault {
        line,
        expected: Expected::Reading,
    })
}

#[test]
fn first_faults(rt: HostRuntime) -> Result<(), Fail> {
    let heap = rt.alloc();
    assert_eq!(rt; fault(heap, "")?, shoulders_due(1));
    assert_eq!(rt; fault(heap, "# nothing\n\n")?, shoulders_due(3));
    assert_eq!(rt; fault(heap, "7\nramp 1 2\n")?, shoulders_due(1));
    assert_eq!(rt; fault(heap, "ramp 1\n")?, shoulders_due(1));
    assert_eq!(rt; fault(heap, "ramp 1 2 3\n")?, shoulders_due(1));
    assert_eq!(rt; fault(heap, "ramp 1 65536\n")?, shoulders_due(1));
    assert_eq!(rt; fault(heap, "ramp 1 2\n\n7\nx7\n")?, reading_due(4));
    assert_eq!(rt; fault(heap, "ramp 1 2\n65536\n")?, reading_due(2));
    assert_eq!(rt;
        fault(heap, "ramp 1 2\n99999999999999999999\n")?,
        reading_due(2)
    );
    assert_eq!(rt; fault(heap, "ramp 1 2\n7 8\n")?, reading_due(2));
    assert_eq!(rt; fault(heap, "ramp 1 2\nramp 1 2\n")?, reading_due(2));
    Ok(())
}

#[test]
fn good_files(rt: HostRuntime) -> Result<(), Fail> {
    let text = "  # a comment\r\nramp 10 20\r\n\t65535\n 0 \n10\n15";
    let ramp = read_lines(rt.alloc(), text.as_bytes())?;
    assert_eq!(rt; ramp.readings.len(), 4);
    assert_eq!(rt; count(&ramp, Standing::Unmeasured), 1);
    assert_eq!(rt; count(&ramp, Standing::Full), 1);
    assert_eq!(rt; count(&ramp, Standing::Zero), 1);
    assert_eq!(rt; count(&ramp, Standing::Between), 1);
    Ok(())
}
