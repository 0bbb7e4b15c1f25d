//! A large session, by its digest.

use crate::ends::{Call, Ran, calm_call, run};
use bridge_calls::{Status, alone};
use demo_gen::session;
use edge_io::{CalmShelf, CalmSink, CalmSource, Words};
use sha2::{Digest, Sha256};
use std::alloc::Global;
use std::sync::Wait;
use std::test::Fail;
use std::thread::Threads;
use tick_core::Book;

/// The SHA-256 digest of the answer of the first demo session, from an encoder for each listener.
const ANSWER_DIGEST: [u8; 32] = [
    0xf2, 0x2e, 0x61, 0x02, 0x91, 0x58, 0x53, 0x16, 0xd3, 0x87, 0xe4, 0x3f, 0x9d, 0xa9, 0x27, 0x0e,
    0xf6, 0x55, 0x63, 0xe9, 0xe5, 0x1b, 0x62, 0x94, 0x80, 0x2b, 0xf7, 0x46, 0x82, 0x36, 0x93, 0xe4,
];

/// The roster of a demo session, cut after its first second.
const FIRST_SECOND: &str = "\
0 join 1 pcmu:1001 16 97 2001 100 1000
0 join 2 pcma:1002 24 98 2002 200 2000
0 join 3 pcmu:1003 32 99 2003 300 3000
0 join 4 pcma:1004 40 96 2004 400 4000
0 join 5 pcmu:1005 16 97 2005 500 5000
0 join 6 pcma:1006 24 98 2006 600 6000
0 join 7 pcmu:1007 32 99 2007 700 7000
0 join 8 pcma:1008 40 96 2008 800 8000
1000 end
";

/// Twelve members that talk in turn and listen, two laws, four rates and thirty seconds.
#[test]
fn first_demo_session(rt: HostRuntime) -> Result<(), Fail> {
    let alloc = rt.alloc();
    let session = session(alloc, 1)?;
    let mut words = Words::new(alloc);
    words.push(alloc, "alone")?;
    words.push(alloc, "demo")?;
    let mut shelf = CalmShelf::new(session.roster);
    let mut dump = CalmSource::new(session.dump);
    let mut out = CalmSink::new(alloc);
    let mut err = CalmSink::new(alloc);
    let mut book = Book::new(alloc);
    let status = alone(
        alloc, &words, &mut book, &mut shelf, &mut dump, &mut out, &mut err,
    );
    assert_eq!(rt; status, Status::Done);
    assert_eq!(rt; out.as_slice().len(), 1_390_039);
    assert_eq!(rt; Sha256::digest(out.as_slice()), ANSWER_DIGEST);
    assert!(rt; err.as_slice() == b"ticks 1500 runs 15272 packets 15500 refused 0\n".as_slice());
    Ok(())
}

/// Runs the first second of the first demo session by these words.
fn run_second<R: Threads + Wait + Sync>(
    rt: &R,
    alloc: Global,
    words: &[&str],
) -> Result<Ran, Fail> {
    let session = session(alloc, 1)?;
    let mut dump = CalmSource::new(session.dump);
    let call = Call {
        words,
        ..calm_call(FIRST_SECOND)
    };
    run(rt, alloc, call, &mut dump)
}

/// Its first second beside four workers: the same octets, and the same line, as alone.
#[test]
fn first_second_beside_four_workers(rt: HostRuntime) -> Result<(), Fail> {
    let alloc = rt.alloc();
    let by_one = run_second(&rt, alloc, &["alone", "r"])?;
    let by_five = run_second(&rt, alloc, &["shared", "4", "r"])?;
    assert_eq!(rt; by_one.status, Status::Done);
    assert_eq!(rt; by_five.status, Status::Done);
    assert_eq!(rt; by_one.out.as_slice().len(), 36_039);
    assert!(rt; by_five.out.as_slice() == by_one.out.as_slice());
    assert!(rt; by_five.err.as_slice() == by_one.err.as_slice());
    Ok(())
}
