ghost use Rattle.std.specs.Prelude.{◌≡◌, ◌≤◌, length, true, IfOk, IfSome};

use crate::{
    Clock, Got, Link, MemClock, MemLink, Peer, PeerKind, PeersError, StdClock, Turn, UdpLink,
    read_peers,
};
use edge_io::{Failed, Octets, PutFault};
use std::alloc::{AllocError, Global};
use std::process::Abort;
use std::test::Fail;

/// A port of this machine.
fn here(port: u16) -> Peer {
    Peer {
        addr: 0x7f00_0001,
        port,
    }
}

/// A list of octets.
fn octets(alloc: Global, items: &[u8]) -> Result<Octets, AllocError>
    ensures { IfOk result (λ octets. octets ≡ items.now) }
{
    Ok(Octets::of(Vec::from_slice(alloc, items)?))
}

/// A datagram of five octets, nothing, a failure, and an empty datagram.
fn turns(alloc: Global) -> Result<Vec<Turn>, AllocError> {
    let mut turns = Vec::new(alloc);
    turns.push(Turn::Datagram(octets(alloc, b"abcde")?, here(9)))?;
    turns.push(Turn::Nothing)?;
    turns.push(Turn::Fault)?;
    turns.push(Turn::Datagram(octets(alloc, b"")?, here(10)))?;
    Ok(turns)
}

#[test]
fn link_in_memory(rt: HostRuntime) -> Result<(), Fail> {
    let alloc = rt.alloc();
    // The first call of `open` fails, and so does the second of `send`, which is the fourth of both.
    let mut link = MemLink::new(alloc, turns(alloc)?, octets(alloc, &[0, 3])?);
    assert_eq!(rt; link.open(5004), Err(Failed));
    link.open(5005).map_err(|_| "open")?;

    let mut buf = [0; 3];
    let cut = Got {
        len: 3,
        from: here(9),
    };
    let empty = Got {
        len: 0,
        from: here(10),
    };
    let want = [
        Ok(Some(cut)),
        Ok(None),
        Err(Failed),
        Ok(Some(empty)),
        Ok(None),
        Ok(None),
    ];
    for want in want {
        assert_eq!(rt; link.recv(&mut buf), want);
    }
    assert_eq!(rt; buf, *b"abc");

    assert_eq!(rt; link.send(alloc, here(1), b"one"), Ok(()));
    assert_eq!(rt; link.send(alloc, here(2), b"two"), Err(PutFault::Failed));
    assert_eq!(rt; link.send(alloc, here(3), b""), Ok(()));
    assert_eq!(rt; link.tries(), 3);
    assert!(rt; link.tried(0) == (here(1), b"one".as_slice(), true));
    assert!(rt; link.tried(1) == (here(2), b"two".as_slice(), false));
    assert!(rt; link.tried(2) == (here(3), b"".as_slice(), true));
    Ok(())
}

#[test]
fn clocks(rt: HostRuntime) -> Result<(), Fail> {
    let mut clock = MemClock::new(Vec::from_slice(rt.alloc(), &[7, 5, 20])?);
    for want in [7, 5, 20, 20, 20] {
        assert_eq!(rt; clock.now(), want);
    }
    let mut clock = StdClock::new(&rt);
    let first = clock.now();
    assert!(rt; first > 0);
    assert!(rt; clock.now() >= first);
    Ok(())
}

/// Opens the link at a port that nobody has.
fn open_somewhere<L: Link>(link: &mut L) -> Option<u16>
    ensures { IfSome result (λ port. L.is_open link.new ≡ true) }
{
    for port in 47_000..47_200u16 {
        if link.open(port).is_ok() {
            return Some(port);
        }
    }
    None
}

#[test]
fn a_datagram_to_its_own_port(rt: HostRuntime) -> Result<(), Fail> {
    let alloc = rt.alloc();
    let mut link = UdpLink::new(&rt);
    let port = open_somewhere(&mut link).ok_or("a port")?;
    let mut buf = [0; 8];
    assert_eq!(rt; link.recv(&mut buf), Ok(None));
    assert_eq!(rt; link.send(alloc, here(port), b"to itself"), Ok(()));
    assert_eq!(rt; link.send(alloc, here(port), b""), Ok(()));
    let cut = Got {
        len: 8,
        from: here(port),
    };
    let empty = Got {
        len: 0,
        from: here(port),
    };
    assert_eq!(rt; link.recv(&mut buf), Ok(Some(cut)));
    assert_eq!(rt; buf, *b"to itsel");
    assert_eq!(rt; link.recv(&mut buf), Ok(Some(empty)));
    assert_eq!(rt; link.recv(&mut buf), Ok(None));

    // The port is taken, and a datagram longer than UDP's greatest doesn't go.
    let mut other = UdpLink::new(&rt);
    assert_eq!(rt; other.open(port), Err(Failed));
    assert_eq!(rt;
        link.send(alloc, here(port), &[0; 65_536]),
        Err(PutFault::Failed)
    );
    Ok(())
}

/// A text has this first fault.
fn refused(rt: &impl Abort, alloc: Global, text: &str, line: u32, kind: PeerKind)
    requires { length text.now ≤ 100 }
{
    let fault = PeersError::Bad { line, kind };
    assert_eq!(rt;
        read_peers(alloc, text.as_bytes()).err(),
        Some(fault),
        "{text}"
    );
}

#[test]
fn texts_of_peers(rt: HostRuntime) -> Result<(), Fail> {
    let alloc = rt.alloc();
    let text = b"1 127.0.0.1 5004\n\n # none\n\t4294967295 255.0.10.009 65534\r\n0 0.0.0.0 1";
    let peers = read_peers(alloc, text).map_err(|_| "peers")?;
    let far = Peer {
        addr: 0xff00_0a09,
        port: 65534,
    };
    let null = Peer { addr: 0, port: 1 };
    assert_eq!(rt; peers.find(1), Some(here(5004)));
    assert_eq!(rt; peers.find(4294967295), Some(far));
    assert_eq!(rt; peers.find(0), Some(null));
    assert_eq!(rt; peers.find(2), None);
    assert!(rt; read_peers(alloc, b"").is_ok());

    let rows = [
        ("1 1.2.3.4", 1, PeerKind::Words),
        ("1 1.2.3.4 5 6", 1, PeerKind::Words),
        ("#\nx 1.2.3.4 5", 2, PeerKind::Number),
        ("4294967296 1.2.3.4 5", 1, PeerKind::Number),
        ("1 1.2.3.4 0", 1, PeerKind::Number),
        ("1 1.2.3.4 65535", 1, PeerKind::Number),
        ("1 x 65535", 1, PeerKind::Number),
        ("1 1.2.3 5", 1, PeerKind::Address),
        ("1 1.2.3.4.5 5", 1, PeerKind::Address),
        ("1 1.2.3.256 5", 1, PeerKind::Address),
        ("1 1.2..4 5", 1, PeerKind::Address),
        ("1 0001.2.3.4 5", 1, PeerKind::Address),
        ("1 1.2.3.-4 5", 1, PeerKind::Address),
        (
            "1 1.2.3.4 5\n2 1.2.3.4 5\n1 1.2.3.4 6\nx",
            3,
            PeerKind::Used,
        ),
    ];
    for (text, line, kind) in rows {
        refused(&rt, alloc, text, line, kind);
    }
    Ok(())
}
