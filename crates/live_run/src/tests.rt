//! A session over a link and a clock in memory.
use crate::{LiveEnd, run_live};
use edge_io::Octets;
use live_spec::LiveSummary;
use std::test::Fail;
use udp_edge::{Link, MemClock, MemLink, read_peers};

/// The last report to member 1 after 250 packets of 80 octets: a sender report, its name, and a BYE. The report before it
/// is the same without the BYE.
const LAST_REPORT: [u8; 56] = [
    0x80, 0xc8, 0, 6, 0, 0, 0, 7, 0, 0, 0, 0, 0, 0, 0, 0, 0, 0, 0x9c, 0x40, 0, 0, 0, 0xfa, 0, 0,
    0x4e, 0x20, 0x81, 0xca, 0, 4, 0, 0, 0, 7, 1, 9, 0x6d, 0x31, 0x40, 0x62, 0x72, 0x69, 0x64, 0x67,
    0x65, 0, 0x81, 0xcb, 0, 1, 0, 0, 0, 7,
];

/// Five seconds of silence to one listener: 250 packets, a report, and one with a BYE.
#[test]
fn reports_of_five_seconds(rt: HostRuntime) -> Result<(), Fail> {
    let alloc = rt.alloc();
    let roster = roster_text::read(alloc, b"0 join 1 - 32 96 7 0 0\n5000 end\n")
        .ok()
        .ok_or("roster")?;
    let peers = read_peers(alloc, b"1 127.0.0.1 5004\n")
        .ok()
        .ok_or("peers")?;
    let mut link = MemLink::new(alloc, Vec::new(alloc), Octets::of(Vec::new(alloc)));
    link.open(5004).ok().ok_or("link")?;
    let mut answers = vec![in alloc; 0u64]?;
    for tick in 1..=250u64 {
        answers.push(20 * tick)?;
    }
    assert!(rt; !answers.is_empty());
    let mut clock = MemClock::new(answers);
    let end = run_live(alloc, roster, &peers, &mut link, &mut clock);
    let done = LiveEnd::Done(LiveSummary {
        ticks: 250,
        runs: 250,
        packets: 250,
        refused: 0,
        unsent: 0,
        reports: 2,
        heard: 0,
    });
    assert_eq!(rt; end, done);
    assert_eq!(rt; link.tries(), 252);
    let (to, octets, went) = link.tried(249);
    assert!(rt; (to.port, octets.len(), went) == (5004, 92, true));
    let (to, octets, went) = link.tried(250);
    assert!(rt; (to.port, went) == (5005, true));
    assert!(rt; octets == &LAST_REPORT[..48]);
    let (to, octets, went) = link.tried(251);
    assert!(rt; (to.port, went) == (5005, true));
    assert!(rt; octets == LAST_REPORT.as_slice());
    Ok(())
}
