//! A `replay` whose report cannot be written.
use ca::replay_run;
use ca_link::{Fused, Writer};
use std::test::Fail;

/// A world of one client and one server, which has one record.
const WORLD: &str = "client anna hall\nserver 127.0.0.1:5064\nrecord TEMP LONG 1 quick 21\n";

#[test]
fn failing_report_is_refused(rt: HostRuntime) -> Result<(), Fail> {
    let mut sink = Fused::new(Writer::new(Vec::new(rt.alloc())), 0);
    let mut told = Vec::new(rt.alloc());
    let status = replay_run(
        rt.alloc(),
        WORLD.as_bytes(),
        None,
        &mut sink,
        &mut told,
        false,
    );
    assert_eq!(rt; status, 1);
    assert!(rt; sink.inner.writer.is_empty());
    assert!(rt; told.as_slice() == "refused: 23 Device\n".as_bytes());
    Ok(())
}
