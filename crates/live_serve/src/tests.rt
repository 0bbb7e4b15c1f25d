//! Calls of `serve` over ends in memory.
ghost use Rattle.std.specs.Prelude.{◌≡◌, IfOk};

use crate::{ServeStatus, serve};
use edge_io::{MemShelf, MemSink, Memory, Octets, Words};
use roster_text::RosterKind;
use std::alloc::{AllocError, Global};
use std::process::Abort;
use std::test::Fail;
use udp_edge::{MemClock, MemLink, Peer, PeerKind, Turn};

const USAGE: &str = "usage: serve PORT PEERS ROSTER\n";

/// One listener at 32 kbit/s, for one tick.
const ONE_TICK: &[u8] = b"0 join 1 - 32 96 7 0 0\n20 end\n";

/// What a call is given: a shelf with the files `p` and `r`, datagrams that come, the answers of a clock, and the calls of the
/// shelf, the link and the error stream that are to fail; and what comes of it: for each datagram that was tried its port, its
/// length and whether it went, and the line on the error stream.
#[derive(Clone, Copy)]
struct Row<'a> {
    shows: &'a str,
    words: &'a [&'a str],
    peers: &'a [u8],
    roster: &'a [u8],
    datagrams: &'a [&'a [u8]],
    answers: &'a [u64],
    shelf_fails: &'a [u8],
    link_fails: &'a [u8],
    err_fails: &'a [u8],
    status: ServeStatus,
    tries: &'a [(u16, usize, bool)],
    err: &'a str,
}

/// One tick of silence: a packet, and a report with a BYE at the port above.
const BARE: Row<'static> = Row {
    shows: "one tick of silence",
    words: &["5004", "p", "r"],
    peers: b"1 127.0.0.1 5004\n",
    roster: ONE_TICK,
    datagrams: &[],
    answers: &[0, 20],
    shelf_fails: &[],
    link_fails: &[],
    err_fails: &[],
    status: ServeStatus::Done,
    tries: &[(5004, 92, true), (5005, 56, true)],
    err: "ticks 1 runs 1 packets 1 refused 0 unsent 0 reports 1 heard 0\n",
};

fn octets(alloc: Global, items: &[u8]) -> Result<Octets, AllocError>
    ensures { IfOk result (λ octets. octets ≡ items.now) }
{
    Ok(Octets::of(Vec::from_slice(alloc, items)?))
}

/// A shelf of two files.
fn shelf(alloc: Global, peers: &[u8], roster: &[u8], fail: &[u8]) -> Result<MemShelf, Memory> {
    let mut shelf = MemShelf::new(
        alloc,
        octets(alloc, b"p")?,
        octets(alloc, peers)?,
        octets(alloc, fail)?,
    );
    shelf.add(octets(alloc, b"r")?, octets(alloc, roster)?)?;
    Ok(shelf)
}

/// A link to which these datagrams come.
fn link(alloc: Global, datagrams: &[&[u8]], fail: &[u8]) -> Result<MemLink, AllocError> {
    let from = Peer {
        addr: 0x7f00_0001,
        port: 5006,
    };
    let mut turns = Vec::new(alloc);
    for datagram in datagrams {
        turns.push(Turn::Datagram(octets(alloc, datagram)?, from))?;
    }
    Ok(MemLink::new(alloc, turns, octets(alloc, fail)?))
}

fn check(rt: &impl Abort, alloc: Global, row: &Row<'_>) -> Result<(), Memory> {
    let shows = row.shows;
    let mut words = Words::new(alloc);
    for word in row.words {
        words.push(alloc, word)?;
    }
    let mut shelf = shelf(alloc, row.peers, row.roster, row.shelf_fails)?;
    let mut link = link(alloc, row.datagrams, row.link_fails)?;
    let mut answers = vec![in alloc; 0u64]?;
    answers.clear();
    for answer in row.answers {
        answers.push(*answer)?;
    }
    assert!(rt; !answers.is_empty());
    let mut clock = MemClock::new(answers);
    let mut err = MemSink::new(alloc, octets(alloc, row.err_fails)?);
    let status = serve(alloc, &words, &mut shelf, &mut link, &mut clock, &mut err);
    assert_eq!(rt; status, row.status, "{shows}");
    assert_eq!(rt; link.tries(), row.tries.len(), "{shows}");
    for i in 0..row.tries.len().min(link.tries()) {
        let (to, octets, went) = link.tried(i);
        assert!(rt; (to.port, octets.len(), went) == row.tries[i], "{shows}");
    }
    assert!(rt; err.as_slice() == row.err.as_bytes(), "{shows}");
    Ok(())
}

fn is_usage(rt: &impl Abort, alloc: Global, words: &[&str]) -> Result<(), Memory> {
    let row = Row {
        shows: "words of no form",
        words,
        status: ServeStatus::Usage,
        tries: &[],
        err: USAGE,
        ..BARE
    };
    check(rt, alloc, &row)
}

fn usage(rt: &impl Abort, alloc: Global) -> Result<(), Memory> {
    is_usage(rt, alloc, &[])?;
    is_usage(rt, alloc, &["5004"])?;
    is_usage(rt, alloc, &["5004", "p", "r", "s"])?;
    is_usage(rt, alloc, &["0", "p", "r"])?;
    is_usage(rt, alloc, &["05004", "p", "r"])?;
    is_usage(rt, alloc, &["65536", "p", "r"])?;
    is_usage(rt, alloc, &["5004", "-p", "r"])?;
    is_usage(rt, alloc, &["5004", "p", ""])
}

fn files(rt: &impl Abort, alloc: Global) -> Result<(), Memory> {
    let long = vec![in alloc; b'#'; 1_048_577]?;
    let refused = Row { tries: &[], ..BARE };
    let rows = [
        Row {
            shows: "a roster that is too long",
            roster: long.as_slice(),
            status: ServeStatus::RosterLong,
            err: "roster longer than 1048576 octets\n",
            ..refused
        },
        Row {
            shows: "a bad line of the roster",
            roster: b"0 jion 1\n",
            peers: b"x\n",
            status: ServeStatus::RosterFault {
                line: 1,
                kind: RosterKind::Words,
            },
            err: "roster line 1: words\n",
            ..refused
        },
        Row {
            shows: "peers that are too long",
            peers: long.as_slice(),
            status: ServeStatus::PeersLong,
            err: "peers longer than 1048576 octets\n",
            ..refused
        },
        Row {
            shows: "a bad line of the peers",
            peers: b"#\n1 127.0.0 5004\n",
            status: ServeStatus::PeerFault {
                line: 2,
                kind: PeerKind::Address,
            },
            err: "peers line 2: address\n",
            ..refused
        },
        Row {
            shows: "a listener without a peer",
            peers: b"",
            status: ServeStatus::PeerMissing { member: 1 },
            err: "peer missing 1\n",
            ..refused
        },
        Row {
            shows: "of two listeners without a peer the first, and who only talks needs none",
            peers: b"1 127.0.0.1 5004\n",
            roster: b"0 join 3 pcmu:5 -\n0 join 1 - 32 96 7 0 0\n0 join 7 - 32 96 8 0 0\n0 join 2 - 32 96 9 0 0\n20 end\n",
            status: ServeStatus::PeerMissing { member: 7 },
            err: "peer missing 7\n",
            ..refused
        },
        Row {
            shows: "a name that isn't there",
            words: &["5004", "s", "r"],
            status: ServeStatus::ReadFault,
            err: "read failed\n",
            ..refused
        },
    ];
    for row in &rows {
        check(rt, alloc, row)?;
    }
    Ok(())
}

fn failures(rt: &impl Abort, alloc: Global) -> Result<(), Memory> {
    let rows = [
        Row {
            shows: "the roster can't be read",
            shelf_fails: &[0],
            status: ServeStatus::ReadFault,
            tries: &[],
            err: "read failed\n",
            ..BARE
        },
        Row {
            shows: "the peers can't be read",
            shelf_fails: &[1],
            status: ServeStatus::ReadFault,
            tries: &[],
            err: "read failed\n",
            ..BARE
        },
        Row {
            shows: "the link can't be opened",
            link_fails: &[0],
            status: ServeStatus::LinkFault,
            tries: &[],
            err: "link failed\n",
            ..BARE
        },
        Row {
            shows: "a packet that doesn't go",
            link_fails: &[1],
            tries: &[(5004, 92, false), (5005, 56, true)],
            err: "ticks 1 runs 1 packets 1 refused 0 unsent 1 reports 1 heard 0\n",
            ..BARE
        },
        Row {
            shows: "a report that doesn't go",
            link_fails: &[2],
            tries: &[(5004, 92, true), (5005, 56, false)],
            err: "ticks 1 runs 1 packets 1 refused 0 unsent 1 reports 1 heard 0\n",
            ..BARE
        },
        Row {
            shows: "words of no form, and the line can't be written",
            words: &[],
            err_fails: &[0],
            status: ServeStatus::Usage,
            tries: &[],
            err: "",
            ..BARE
        },
        Row {
            shows: "the summary can't be written",
            err_fails: &[0],
            status: ServeStatus::WriteFault,
            err: "write failed\n",
            ..BARE
        },
        Row {
            shows: "nothing can be written",
            err_fails: &[0, 1],
            status: ServeStatus::WriteFault,
            err: "",
            ..BARE
        },
    ];
    for row in &rows {
        check(rt, alloc, row)?;
    }
    Ok(())
}

fn sessions(rt: &impl Abort, alloc: Global) -> Result<(), Memory> {
    let rows = [
        BARE,
        Row {
            shows: "no ticks",
            peers: b"",
            roster: b"0 end",
            tries: &[],
            err: "ticks 0 runs 0 packets 0 refused 0 unsent 0 reports 0 heard 0\n",
            ..BARE
        },
        Row {
            shows: "a clock that stands still",
            answers: &[0],
            ..BARE
        },
        Row {
            shows: "an empty datagram, one of an unknown talker, a packet of RTCP and one that is none",
            datagrams: &[
                b"",
                b"\x80\x00\0\0\0\0\0\0\0\0\0\x05\x80",
                b"\x80\xc9\0\x01\0\0\0\x07",
                b"\x80\xc9",
            ],
            answers: &[0, 1, 2, 3, 20],
            err: "ticks 1 runs 1 packets 1 refused 2 unsent 0 reports 1 heard 1\n",
            ..BARE
        },
    ];
    for row in &rows {
        check(rt, alloc, row)?;
    }
    Ok(())
}

/// Words of another form are told as such, and nothing is read.
#[test]
fn other_words_are_usage(rt: HostRuntime) -> Result<(), Fail> {
    let alloc = rt.alloc();
    usage(&rt, alloc).map_err(|_| "memory")?;
    Ok(())
}

/// Files that can't be used end the call before anything is sent.
#[test]
fn bad_files_are_told(rt: HostRuntime) -> Result<(), Fail> {
    let alloc = rt.alloc();
    files(&rt, alloc).map_err(|_| "memory")?;
    Ok(())
}

/// Each call of the shelf, the link and the error stream fails in turn.
#[test]
fn failed_calls_are_told(rt: HostRuntime) -> Result<(), Fail> {
    let alloc = rt.alloc();
    failures(&rt, alloc).map_err(|_| "memory")?;
    Ok(())
}

/// A session that is run has its tries and its line.
#[test]
fn sessions_have_their_lines(rt: HostRuntime) -> Result<(), Fail> {
    let alloc = rt.alloc();
    sessions(&rt, alloc).map_err(|_| "memory")?;
    Ok(())
}

/// A sender report after 250 packets of 80 octets, and a description of the sender.
const REPORT: &[u8] = b"\x80\xc8\0\x06\0\0\0\x07\0\0\0\0\0\0\0\0\0\0\x9c\x40\0\0\0\xfa\0\0\x4e\x20\
    \x81\xca\0\x04\0\0\0\x07\x01\x09m1@bridge\0";

/// The same with a BYE.
const LAST_REPORT: &[u8] =
    b"\x80\xc8\0\x06\0\0\0\x07\0\0\0\0\0\0\0\0\0\0\x9c\x40\0\0\0\xfa\0\0\x4e\x20\
    \x81\xca\0\x04\0\0\0\x07\x01\x09m1@bridge\0\x81\xcb\0\x01\0\0\0\x07";

fn reports(rt: &impl Abort, alloc: Global) -> Result<(), Memory> {
    let mut words = Words::new(alloc);
    for word in BARE.words {
        words.push(alloc, word)?;
    }
    let mut shelf = shelf(
        alloc,
        BARE.peers,
        b"0 join 1 - 32 96 7 0 0\n5000 end\n",
        &[],
    )?;
    let mut link = link(alloc, &[], &[])?;
    let mut answers = vec![in alloc; 0u64]?;
    for tick in 0..250u64 {
        answers.push(20 * (tick + 1))?;
    }
    assert!(rt; !answers.is_empty());
    let mut clock = MemClock::new(answers);
    let mut err = MemSink::new(alloc, octets(alloc, &[])?);
    let status = serve(alloc, &words, &mut shelf, &mut link, &mut clock, &mut err);
    assert_eq!(rt; status, ServeStatus::Done);
    assert_eq!(rt; link.tries(), 252);
    let (to, report, went) = link.tried(250);
    assert!(rt; to.port == 5005 && report == REPORT && went);
    let (to, report, went) = link.tried(251);
    assert!(rt; to.port == 5005 && report == LAST_REPORT && went);
    let line = "ticks 250 runs 250 packets 250 refused 0 unsent 0 reports 2 heard 0\n";
    assert!(rt; err.as_slice() == line.as_bytes());
    Ok(())
}

/// After 250 ticks a listener gets a report at the port above its peer's, and at the end one with a BYE.
#[test]
fn reports_say_what_was_sent(rt: HostRuntime) -> Result<(), Fail> {
    let alloc = rt.alloc();
    reports(&rt, alloc).map_err(|_| "memory")?;
    Ok(())
}
