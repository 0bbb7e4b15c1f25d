use crate::{Head, HeadFault, Parsed, parse, write};
use std::prelude::HostRuntime;

/// A packet of this first octet and length, with zeros behind the octet.
fn begins(first: u8) -> [u8; 40] {
    let mut bytes = [0; 40];
    bytes[0] = first;
    bytes
}

#[test]
fn each_fault_at_its_first_octets(rt: HostRuntime) {
    let rows = [
        (0x9f, 11, HeadFault::Short),
        (0x40, 12, HeadFault::Version),
        (0x8f, 40, HeadFault::Csrcs),
        (0x90, 14, HeadFault::Extension),
        (0xa0, 20, HeadFault::Padding),
        // A count of sources in a head that ends there.
        (0x8f, 12, HeadFault::Csrcs),
        // Twelve octets with a padding bit have no octet that counts the padding.
        (0xa0, 12, HeadFault::Padding),
        // The first fault is told: sources, extension and padding are all too long.
        (0xbf, 12, HeadFault::Csrcs),
        (0xb0, 15, HeadFault::Extension),
    ];
    for (first, len, fault) in rows {
        let bytes = begins(first);
        assert_eq!(rt;
            parse(&bytes[..len]),
            Err(fault),
            "first octet {first}, {len} octets"
        );
    }
    let mut counts_most_words = begins(0x90);
    counts_most_words[14] = 0xff;
    counts_most_words[15] = 0xff;
    assert_eq!(rt; parse(&counts_most_words[..16]), Err(HeadFault::Extension));
}

#[test]
fn heads_and_payloads(rt: HostRuntime) {
    let silent_listener = Head {
        marker: true,
        pt: 96,
        seq: 0,
        stamp: 0,
        ssrc: 7,
    };
    let mut out = [0; 12];
    write(&silent_listener, &mut out);
    assert_eq!(rt; out, [0x80, 0xe0, 0, 0, 0, 0, 0, 0, 0, 0, 0, 7]);

    // One source, an extension of one word, two octets of payload, three of padding.
    let bytes = [
        0xb1, 0x08, 0x12, 0x34, 0, 0, 0, 160, 0, 0, 0, 5, 1, 2, 3, 4, 0xbe, 0xde, 0, 1, 9, 9, 9, 9,
        0x55, 0xd5, 0, 0, 3,
    ];
    let head = Head {
        marker: false,
        pt: 8,
        seq: 0x1234,
        stamp: 160,
        ssrc: 5,
    };
    assert_eq!(rt;
        parse(&bytes),
        Ok(Parsed {
            head,
            from: 24,
            to: 26
        })
    );
    // Padding may leave an empty payload.
    let mut padded = begins(0xa0);
    padded[15] = 4;
    assert_eq!(rt;
        parse(&padded[..16]).map(|found| (found.from, found.to)),
        Ok((12, 12))
    );
}
