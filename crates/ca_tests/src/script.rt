//! Lines of a report with outcomes that no case of `vectors` has.
use ca_dbr::Outcome;
use ca_script::{put, put_count, put_outcome, write_end};
use ca_text::{Refusal, Status};
use std::test::Fail;

// The lines of what no case of the program reports.
#[test]
fn lines_are_written(rt: HostRuntime) -> Result<(), Fail> {
    let mut out = Vec::new(rt.alloc());
    put_completed(2, &Outcome::Done, &mut out)?;
    put_completed(3, &Outcome::Failed(Status { number: 410 }), &mut out)?;
    put_completed(4, &Outcome::Unreadable(Refusal::Short), &mut out)?;
    put_completed(5, &Outcome::Disconnected, &mut out)?;
    write_end(18, &mut out)?;
    let wanted = b"0 completed 2 done
0 completed 3 status 410
0 completed 4 unreadable 5
0 completed 5 disconnected
events 18
";
    assert!(rt; out.as_slice() == wanted.as_slice());
    Ok(())
}

fn put_completed(request: u64, outcome: &Outcome, text: &mut Vec<u8>) -> Result<(), Refusal> {
    put_count(b"0 completed ", request, text)?;
    put_outcome(outcome, text)?;
    put(b"\n", text)
}
