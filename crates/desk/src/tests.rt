//! A desk through all its answers, with values worked out by hand.

ghost use Rattle.std.specs.Prelude.{◌≤◌, IfOk};
ghost use Rattle.session_spec.specs.Talkers.{Events};
ghost use Rattle.desk.specs.Standing.{Stands};

use crate::Desk;
use edge_io::Memory;
use g726_bits::Rate;
use roster_text::{Command, Law, Talk};
use rtp_head::HeadFault;
use session_spec::Arrival;
use std::alloc::Global;
use std::test::Fail;

/// A desk at which member 1 talks with SSRC 5.
fn desk_of_one(alloc: Global, law: Law) -> Result<Desk, Memory>
    ensures { IfOk result (λ desk. (h : Events) × Stands desk h) }
{
    let mut desk = Desk::new(alloc);
    let talk = Some(Talk { law, ssrc: 5 });
    desk.apply(
        alloc,
        Command::Join {
            member: 1,
            talk,
            listen: None,
        },
    )?;
    Ok(desk)
}

/// The same desk, once that member has left.
fn desk_of_none(alloc: Global) -> Result<Desk, Memory> {
    let mut desk = desk_of_one(alloc, Law::Mu)?;
    desk.apply(alloc, Command::Leave { member: 1 })?;
    Ok(desk)
}

/// What arrives: octets of speech behind a head, the greatest sample each, and how many octets were on the wire.
#[derive(Clone, Copy)]
struct Arriving {
    ssrc: u8,
    pt: u8,
    stamp: u32,
    octets: usize,
    plen: u16,
}

/// A whole packet of 160 octets of speech.
fn whole(stamp: u32) -> Arriving
    ensures { result.octets ≤ 1613 }
{
    Arriving {
        ssrc: 5,
        pt: 0,
        stamp,
        octets: 172,
        plen: 172,
    }
}

/// A packet of type 100, with so many octets of codes.
fn coded(octets: u16) -> Arriving
    requires { octets ≤ 601 }
    ensures { result.octets ≤ 1613 }
{
    Arriving {
        pt: 100,
        octets: 12 + usize::from(octets),
        plen: 12 + octets,
        ..whole(0)
    }
}

fn arrive(desk: &mut Desk, what: Arriving) -> Arrival
    requires { what.octets ≤ 1613 }
{
    let mut packet = [0x80; 1613];
    packet[1] = what.pt;
    packet[2..4].copy_from_slice(&[0, 0]);
    packet[4..8].copy_from_slice(&what.stamp.to_be_bytes());
    packet[8..12].copy_from_slice(&[0, 0, 0, what.ssrc]);
    desk.arrive(what.plen, &packet[..what.octets])
}

/// Each reason to refuse, a packet that is taken and comes again, and a line that is started anew.
#[test]
fn answers(rt: HostRuntime) -> Result<(), Fail> {
    let mut desk = desk_of_one(rt.alloc(), Law::Mu).ok().ok_or("no memory")?;
    let cut = Arriving {
        plen: 173,
        ..whole(0)
    };
    assert_eq!(rt; arrive(&mut desk, cut), Arrival::Cut);
    let short = Arriving {
        octets: 11,
        plen: 11,
        ..whole(0)
    };
    assert_eq!(rt; arrive(&mut desk, short), Arrival::Head(HeadFault::Short));
    let stranger = Arriving {
        ssrc: 7,
        ..whole(0)
    };
    assert_eq!(rt; arrive(&mut desk, stranger), Arrival::Unknown);
    let other_law = Arriving { pt: 8, ..whole(0) };
    assert_eq!(rt; arrive(&mut desk, other_law), Arrival::PayloadType);
    let empty = Arriving {
        octets: 12,
        plen: 12,
        ..whole(0)
    };
    assert_eq!(rt; arrive(&mut desk, empty), Arrival::Empty);
    let long = Arriving {
        octets: 1613,
        plen: 1613,
        ..whole(0)
    };
    assert_eq!(rt; arrive(&mut desk, long), Arrival::TooLong);
    assert_eq!(rt; arrive(&mut desk, whole(0)), Arrival::Took { new: 160 });
    assert_eq!(rt; arrive(&mut desk, whole(0)), Arrival::Took { new: 0 });
    assert_eq!(rt; arrive(&mut desk, whole(2561)), Arrival::Early);
    for _ in 0..23 {
        assert_eq!(rt; arrive(&mut desk, whole(4_294_966_656)), Arrival::Late);
    }
    assert_eq!(rt; arrive(&mut desk, whole(4_294_966_656)), Arrival::Restarted);
    assert_eq!(rt; desk.refused(), 30);
    Ok(())
}

/// A packet is heard in the fourth tick from its own on, and nobody is known once the talker has left.
#[test]
fn frames_and_leave(rt: HostRuntime) -> Result<(), Fail> {
    let mut desk = desk_of_one(rt.alloc(), Law::Mu).ok().ok_or("no memory")?;
    assert_eq!(rt; arrive(&mut desk, whole(320)), Arrival::Took { new: 160 });
    for _ in 0..3 {
        assert_eq!(rt; desk.frames().len(), 0);
    }
    let tick = desk.frames();
    assert_eq!(rt; tick.len(), 1);
    let (member, frame) = tick.talker(0);
    assert_eq!(rt; member, 1);
    assert_eq!(rt; frame.samples(), &[8031; 160]);
    let mut left = desk_of_none(rt.alloc()).ok().ok_or("no memory")?;
    assert_eq!(rt; arrive(&mut left, whole(320)), Arrival::Unknown);
    Ok(())
}

/// A talker of G.726: its payload type, payloads that are too long or of no whole codes, and codes that are taken.
#[test]
fn codes(rt: HostRuntime) -> Result<(), Fail> {
    let law = Law::G726 {
        rate: Rate::R24,
        pt: 100,
    };
    let mut desk = desk_of_one(rt.alloc(), law).ok().ok_or("no memory")?;
    assert_eq!(rt; arrive(&mut desk, whole(0)), Arrival::PayloadType);
    assert_eq!(rt; arrive(&mut desk, coded(601)), Arrival::TooLong);
    assert_eq!(rt; arrive(&mut desk, coded(80)), Arrival::Ragged);
    assert_eq!(rt; arrive(&mut desk, coded(0)), Arrival::Empty);
    assert_eq!(rt; arrive(&mut desk, coded(3)), Arrival::Took { new: 8 });
    assert_eq!(rt; arrive(&mut desk, coded(600)), Arrival::Took { new: 1592 });
    assert_eq!(rt; desk.refused(), 4);
    assert_eq!(rt; desk.frames().len(), 0);
    Ok(())
}

/// Packets made to harm: heads that count more than came, a payload that is too long, another type, and a head alone. Each is refused
/// and counted.
#[test]
fn hostile_packets(rt: HostRuntime) -> Result<(), Fail> {
    let mut desk = desk_of_one(rt.alloc(), Law::Mu).ok().ok_or("no memory")?;
    let mut long = [0x80; 1613];
    long[..12].copy_from_slice(b"\x80\0\0\0\0\0\0\0\0\0\0\x05");
    let packets: [(u16, &[u8], Arrival); 5] = [
        (
            12,
            b"\x8f\0\0\0\0\0\0\0\0\0\0\x05",
            Arrival::Head(HeadFault::Csrcs),
        ),
        (
            16,
            b"\x90\0\0\0\0\0\0\0\0\0\0\x05\0\0\xff\xff",
            Arrival::Head(HeadFault::Extension),
        ),
        (1613, &long, Arrival::TooLong),
        (
            13,
            b"\x80\x0d\0\0\0\0\0\0\0\0\0\x05\x80",
            Arrival::PayloadType,
        ),
        (12, b"\x80\0\0\0\0\0\0\0\0\0\0\x05", Arrival::Empty),
    ];
    for (plen, octets, answer) in packets {
        assert_eq!(rt; desk.arrive(plen, octets), answer);
    }
    assert_eq!(rt; desk.refused(), 5);
    Ok(())
}
