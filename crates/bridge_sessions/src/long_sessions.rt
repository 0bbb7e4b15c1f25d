//! Sessions in which the conference is cut.

use crate::answers::silence;
use crate::captures::HEAD;
use crate::ends::{calm_call, octets, run};
use bridge_calls::Status;
use edge_io::CalmSource;
use std::test::Fail;

/// Four hundred seconds of silence, 20,000 ticks: the conference is cut twice, and what is sent goes on as if it weren't.
#[test]
fn silence_over_two_cuts(rt: HostRuntime) -> Result<(), Fail> {
    let alloc = rt.alloc();
    let mut dump = CalmSource::new(octets(alloc, HEAD)?);
    let call = calm_call("0 join 1 - 32 96 7 0 0\n400000 end\n");
    let ran = run(&rt, alloc, call, &mut dump)?;
    assert_eq!(rt; ran.status, Status::Done);
    assert_eq!(rt; ran.out.as_slice().len(), 2_000_039);
    assert!(rt; ran.out.as_slice() == silence(alloc, 20_000)?.as_slice());
    assert!(rt;
        ran.err.as_slice() == b"ticks 20000 runs 20000 packets 20000 refused 0\n".as_slice()
    );
    Ok(())
}

/// A day without members: 4,320,000 ticks.
#[test]
fn day_without_members(rt: HostRuntime) -> Result<(), Fail> {
    let alloc = rt.alloc();
    let mut dump = CalmSource::new(octets(alloc, HEAD)?);
    let ran = run(&rt, alloc, calm_call("86400000 end\n"), &mut dump)?;
    assert_eq!(rt; ran.status, Status::Done);
    assert!(rt; ran.out.as_slice() == HEAD.as_slice());
    assert!(rt; ran.err.as_slice() == b"ticks 4320000 runs 0 packets 0 refused 0\n".as_slice());
    Ok(())
}
