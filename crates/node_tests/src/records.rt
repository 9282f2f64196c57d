// What no clause says: that a record in memory takes entries where there is memory.

use can_frame::{Frame, Ident};
use run_records::{MemRecord, Noted, Record};
use std::test::Fail;

#[test]
fn a_record_in_memory_keeps_its_entries(rt: HostRuntime) -> Result<(), Fail> {
    let frame = Frame::make(Ident::Std(1), false, 0, [0; 8], 1).ok_or("a frame")?;
    let mut record = MemRecord::new(rt.alloc());
    assert!(rt; record.noted().is_empty());
    assert!(rt; record.line(1250, 3, b"go").is_ok() && record.frame(1300, &frame).is_ok());
    assert_eq!(rt; record.noted().len(), 2);
    let go = b"go".as_slice();
    assert!(rt;
        matches!(&record.noted()[0], Noted::Line { now: 1250, node: 3, text } if text.bytes() == go)
    );
    assert!(rt;
        matches!(&record.noted()[1], Noted::Frame { now: 1300, frame: kept } if *kept == frame)
    );
    Ok(())
}
