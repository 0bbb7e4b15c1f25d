use crate::Tallies;
use conference_spec::{JoinSpec, Packet};
use g726_bits::Rate;
use pack3551::{Bundle, pack};
use rtcp_pack::Report;
use rtp_head::Head;
use std::test::Fail;

/// A listener at 32 kbit/s, whose packets begin with timestamp 0.
fn spec(member: u32, ssrc: u32) -> JoinSpec {
    JoinSpec {
        member,
        rate: Rate::R32,
        pt: 96,
        ssrc,
        first_seq: 0,
        first_stamp: 0,
        ticks: 1,
    }
}

/// A packet of 80 octets to a member, or `None` where its codes are none.
fn packet(member: u32) -> Option<Packet> {
    let codes = [0u8; 160];
    if !codes.iter().all(|c| *c < 16) {
        return None;
    }
    let mut payload = Bundle::empty();
    payload.push(&pack(Rate::R32, &codes));
    let head = Head {
        marker: false,
        pt: 96,
        seq: 0,
        stamp: 0,
        ssrc: 7,
    };
    Some(Packet {
        member,
        head,
        payload,
    })
}

#[test]
fn reports_of_five_seconds(rt: HostRuntime) -> Result<(), Fail> {
    let alloc = rt.alloc();
    let packet = packet(1).ok_or("codes")?;
    let mut tallies = Tallies::new(alloc);
    tallies.join(spec(1, 7), 0).map_err(|_| "memory")?;
    tallies.join(spec(2, 8), 0).map_err(|_| "memory")?;
    for _ in 0..250 {
        tallies.count(&packet).map_err(|_| "memory")?;
    }
    let report = Report {
        ssrc: 7,
        stamp: 40000,
        packets: 250,
        octets: 20000,
        member: 1,
        bye: false,
    };
    let last = Report {
        bye: true,
        ..report
    };
    // Nobody is due before the 250th tick, and the second one never is: it was sent nothing.
    let none = tallies.tick_reports(alloc, 248).map_err(|_| "memory")?;
    assert!(rt; none.is_empty());
    let regular = tallies.tick_reports(alloc, 249).map_err(|_| "memory")?;
    assert!(rt; regular.as_slice() == [report].as_slice());
    let end = tallies.end_reports(alloc, 250).map_err(|_| "memory")?;
    assert!(rt; end.as_slice() == [last].as_slice());

    // Whoever leaves has its last report after the next tick, and no other.
    tallies.close(249);
    tallies.leave(1, 250);
    let bye = tallies.tick_reports(alloc, 250).map_err(|_| "memory")?;
    assert!(rt; bye.as_slice() == [last].as_slice());
    tallies.close(250);
    let end = tallies.end_reports(alloc, 251).map_err(|_| "memory")?;
    assert!(rt; end.is_empty());
    Ok(())
}
