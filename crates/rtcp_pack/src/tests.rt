use crate::{Report, RtcpFault, check, write};
use std::prelude::HostRuntime;

/// A report of 250 packets to a member.
fn report(member: u32, bye: bool) -> Report {
    Report {
        ssrc: 7,
        stamp: 40000,
        packets: 250,
        octets: 20000,
        member,
        bye,
    }
}

#[test]
fn octets_of_a_report(rt: HostRuntime) {
    let mut octets = [
        0x80, 0xc8, 0, 6, 0, 0, 0, 7, 0, 0, 0, 0, 0, 0, 0, 0, 0, 0, 0x9c, 0x40, 0, 0, 0, 0xfa, 0,
        0, 0x4e, 0x20, 0x81, 0xca, 0, 4, 0, 0, 0, 7, 1, 9, 0x6d, 0x31, 0x40, 0x62, 0x72, 0x69,
        0x64, 0x67, 0x65, 0, 0x81, 0xcb, 0, 1, 0, 0, 0, 7, 0xaa, 0xaa, 0xaa, 0xaa, 0xaa, 0xaa,
        0xaa, 0xaa, 0xaa, 0xaa, 0xaa, 0xaa,
    ];
    let mut out = [0xaa; 68];
    assert_eq!(rt; write(&report(1, true), &mut out), 56);
    assert_eq!(rt; out, octets);

    octets[48..56].copy_from_slice(&[0xaa; 8]);
    out = [0xaa; 68];
    assert_eq!(rt; write(&report(1, false), &mut out), 48);
    assert_eq!(rt; out, octets);
}

#[test]
fn names_of_each_length_are_taken(rt: HostRuntime) {
    let rows = [(0, 48), (10, 52), (99999, 52), (100000, 56), (u32::MAX, 60)];
    for (member, len) in rows {
        let mut out = [0; 68];
        let found = write(&report(member, false), &mut out);
        assert_eq!(rt;
            (found, check(&out[..found])),
            (len, Ok(2)),
            "member {member}"
        );
        let found = write(&report(member, true), &mut out);
        assert_eq!(rt;
            (found, check(&out[..found])),
            (len + 8, Ok(3)),
            "member {member}"
        );
    }
}

/// What is said of a few octets.
fn checked(bytes: &[u8]) -> Result<u32, RtcpFault> {
    check(&bytes[..bytes.len().min(64)])
}

#[test]
fn each_fault_at_its_first_octets(rt: HostRuntime) {
    let rows: [(&[u8], Result<u32, RtcpFault>); 12] = [
        (&[], Err(RtcpFault::Short)),
        (&[0x80, 0xc9], Err(RtcpFault::Short)),
        (&[0x40, 0xc9, 0, 0], Err(RtcpFault::Version)),
        (&[0x81, 0xcb, 0, 1, 0, 0, 0, 7], Err(RtcpFault::First)),
        (&[0x80, 0xc9, 0, 1, 0, 0, 0, 7], Ok(1)),
        (&[0x80, 0xc9, 0, 2, 0, 0, 0, 7], Err(RtcpFault::Length)),
        // A compound is its first packet and those behind it.
        (
            &[0x80, 0xc9, 0, 1, 0, 0, 0, 7, 0x80, 0xcb, 0],
            Err(RtcpFault::Short),
        ),
        (
            &[0x80, 0xc9, 0, 1, 0, 0, 0, 7, 0xc0, 0xcb, 0, 0],
            Err(RtcpFault::Version),
        ),
        // An application's packet may follow, whatever it holds.
        (&[0x80, 0xc9, 0, 1, 0, 0, 0, 7, 0x9f, 0xcc, 0, 0], Ok(2)),
        // The first fault of the first packet that has one is told.
        (&[0x81, 0xc9, 0, 1, 0, 0, 0, 7, 0x40], Err(RtcpFault::Body)),
        (&[0x7f, 0xcc, 0xff, 0xff], Err(RtcpFault::Version)),
        (&[0xbf, 0xcc, 0xff, 0xff], Err(RtcpFault::First)),
    ];
    for (bytes, answer) in rows {
        assert_eq!(rt; checked(bytes), answer, "{bytes:?}");
    }
}

#[test]
fn padding_in_whole_words_at_the_end(rt: HostRuntime) {
    let rows: [(&[u8], Result<u32, RtcpFault>); 7] = [
        (&[0xa0, 0xc9, 0, 2, 0, 0, 0, 7, 0, 0, 0, 4], Ok(1)),
        (
            &[0x80, 0xc9, 0, 1, 0, 0, 0, 7, 0xa0, 0xcb, 0, 1, 0, 0, 0, 4],
            Ok(2),
        ),
        (
            &[0xa0, 0xc9, 0, 2, 0, 0, 0, 7, 0, 0, 0, 4, 0x80, 0xcb, 0, 0],
            Err(RtcpFault::Padding),
        ),
        (
            &[0xa0, 0xc9, 0, 2, 0, 0, 0, 7, 0, 0, 0, 0],
            Err(RtcpFault::Padding),
        ),
        (
            &[0xa0, 0xc9, 0, 2, 0, 0, 0, 7, 0, 0, 0, 6],
            Err(RtcpFault::Padding),
        ),
        (
            &[0xa0, 0xc9, 0, 2, 0, 0, 0, 7, 0, 0, 0, 12],
            Err(RtcpFault::Padding),
        ),
        // All that follows the head is padding, and nothing is left for the SSRC.
        (
            &[0xa0, 0xc9, 0, 2, 0, 0, 0, 7, 0, 0, 0, 8],
            Err(RtcpFault::Body),
        ),
    ];
    for (bytes, answer) in rows {
        assert_eq!(rt; checked(bytes), answer, "{bytes:?}");
    }
}

/// What is said of an empty receiver report and a packet of this head and body behind it.
fn follows(first: u8, packet_type: u8, body: &[u8]) -> Result<u32, RtcpFault> {
    let body = &body[..body.len().min(52)];
    let mut bytes = [0; 64];
    bytes[..8].copy_from_slice(&[0x80, 0xc9, 0, 1, 0, 0, 0, 7]);
    bytes[8] = first;
    bytes[9] = packet_type;
    bytes[11] = (body.len() / 4) as u8;
    bytes[12..12 + body.len()].copy_from_slice(body);
    check(&bytes[..12 + body.len()])
}

#[test]
fn bodies_hold_what_is_counted(rt: HostRuntime) {
    let rows: [(u8, u8, &[u8], bool); 18] = [
        (0x80, 200, &[0; 24], true),
        (0x80, 200, &[0; 20], false),
        (0x81, 200, &[0; 48], true),
        (0x81, 200, &[0; 44], false),
        (0x82, 201, &[0; 52], true),
        (0x82, 201, &[0; 48], false),
        (0x83, 203, &[0; 12], true),
        (0x83, 203, &[0; 8], false),
        (0x80, 202, &[], true),
        // A chunk without items, whose end fills a word, and one without that end.
        (0x81, 202, &[0, 0, 0, 7, 0, 9, 9, 9], true),
        (0x81, 202, &[0, 0, 0, 7], false),
        // Two items, the second without a text; and one item whose end is cut off, or is in its text.
        (0x81, 202, &[0, 0, 0, 7, 1, 2, 0x6d, 0x31, 6, 0, 0, 0], true),
        (0x81, 202, &[0, 0, 0, 7, 1, 2, 0x6d, 0x31], false),
        (0x81, 202, &[0, 0, 0, 7, 1, 2, 0x6d, 0], false),
        // A text past the end, and an item that is only a type.
        (0x81, 202, &[0, 0, 0, 7, 1, 3, 0x6d, 0x31], false),
        (0x81, 202, &[0, 0, 0, 7, 1, 1, 0x6d, 1], false),
        // Two chunks, and one of two.
        (
            0x82,
            202,
            &[0, 0, 0, 7, 0, 0, 0, 0, 0, 0, 0, 8, 1, 1, 0x6d, 0],
            true,
        ),
        (0x82, 202, &[0, 0, 0, 7, 0, 0, 0, 0], false),
    ];
    for (first, packet_type, body, fits) in rows {
        let answer = if fits { Ok(2) } else { Err(RtcpFault::Body) };
        assert_eq!(rt;
            follows(first, packet_type, body),
            answer,
            "{first} {packet_type} {body:?}"
        );
    }
}
