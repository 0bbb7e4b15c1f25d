//! Captures cut, broken and failing, with the kinds and places worked out from the format.

ghost use Rattle.std.specs.Prelude.{◌≡◌};
ghost use Rattle.rtp_dump.specs.Reading.{IsBegun};

use crate::{DumpFault, DumpItem, DumpKind, DumpWriter, Reader};
use edge_io::{CalmSink, CalmSource, Failed, MemSource, Octets, Source, read_full};
use std::alloc::Global;
use std::test::Fail;

/// A source that gives at most one octet a call.
#[derive(Drop)]
struct OctetByOctet {
    source: CalmSource,
}

impl Source for OctetByOctet {
    ghost use Rattle.std.specs.Prelude.{Some};

    ghost rest = { λ by_octet. Some by_octet.source };

    ghost faults = { λ _. 0 };

    fn read(&mut self, buf: &mut [u8]) -> Result<usize, Failed> {
        if buf.is_empty() {
            return Ok(0);
        }
        self.source.read(&mut buf[..1])
    }
}

/// What a reader makes of a capture: how many records it gives, and the fault that ends them.
#[derive(Clone, Copy, Debug, PartialEq, Eq)]
struct Outcome {
    records: u64,
    fault: Option<DumpFault>,
}

/// Reads a capture of at most three records to its end, and asks again where a fault was answered.
fn read_through<S: Source>(alloc: Global, source: &mut S) -> Outcome {
    let mut reader = Reader::new(source);
    if let Err(end) = reader.head() {
        return Outcome {
            records: 0,
            fault: Some(end.into()),
        };
    }
    for records in 0..4 {
        match reader.next(alloc) {
            Ok(Some(_item)) => {}
            Ok(None) => {
                return Outcome {
                    records,
                    fault: None,
                };
            }
            Err(fault) => {
                return Outcome {
                    records,
                    fault: Some(fault),
                };
            }
        }
    }
    Outcome {
        records: 4,
        fault: None,
    }
}

/// A capture of three records of 172 octets at the offsets 0, 20 and 40: 579 octets.
fn three_records(alloc: Global) -> Result<CalmSink, Fail> {
    let mut sink = CalmSink::new(alloc);
    let mut writer = DumpWriter::new(&mut sink);
    writer.head(alloc)?;
    for record in 0..3u8 {
        let mut packet = vec![in alloc; 0x80; 172]?;
        packet[1..4].copy_from_slice(&[0, 0, record]);
        writer.put(alloc, 20 * u32::from(record), &packet)?;
    }
    Ok(sink)
}

/// What a front of that capture has: its whole records, and what is torn behind them.
fn torn_at(cut: u64) -> Outcome {
    if cut < 23 {
        return broken(0, cut, DumpKind::NotDump);
    }
    if cut < 39 {
        return broken(0, 23, DumpKind::TornHead);
    }
    let records = (cut - 39) / 180;
    let place = 39 + 180 * records;
    match cut - place {
        0 => Outcome {
            records,
            fault: None,
        },
        1..8 => broken(records, place, DumpKind::TornHead),
        _ => broken(records, place, DumpKind::TornRecord),
    }
}

fn broken(records: u64, at: u64, kind: DumpKind) -> Outcome {
    Outcome {
        records,
        fault: Some(DumpFault::Bad { at, kind }),
    }
}

/// A capture cut at every length, read in large pieces and octet by octet.
#[test]
fn cut_at_every_length(rt: HostRuntime) -> Result<(), Fail> {
    let alloc = rt.alloc();
    let sink = three_records(alloc)?;
    let whole = sink.as_slice();
    assert_eq!(rt; whole.len(), 579);
    assert_eq!(rt; &whole[..23], b"#!rtpplay1.0 0.0.0.0/0\n".as_slice());
    assert_eq!(rt;
        &whole[219..235],
        [
            0, 180, 0, 172, 0, 0, 0, 20, 0x80, 0, 0, 1, 0x80, 0x80, 0x80, 0x80
        ]
        .as_slice()
    );
    for cut in 0..580 {
        let front = &whole[..cut];
        let mut source = CalmSource::new(Octets::of(Vec::from_slice(alloc, front)?));
        assert_eq!(rt;
            read_through(alloc, &mut source),
            torn_at(cut as u64),
            "cut at {cut}"
        );
        let source = CalmSource::new(Octets::of(Vec::from_slice(alloc, front)?));
        let mut by_octet = OctetByOctet { source };
        assert_eq!(rt;
            read_through(alloc, &mut by_octet),
            torn_at(cut as u64),
            "cut at {cut}, octet by octet"
        );
    }
    Ok(())
}

/// Lines, file heads and record heads that are broken, each at its place.
#[test]
fn broken_captures(rt: HostRuntime) -> Result<(), Fail> {
    let alloc = rt.alloc();
    let mut long_line = vec![in alloc; b'a'; 1030]?;
    long_line[..12].copy_from_slice(b"#!rtpplay1.0");
    let whole_head = b"#!rtpplay1.0\n0123456789abcdef";
    let rows: [(&[u8], &[u8], Outcome); 7] = [
        (b"", b"", broken(0, 0, DumpKind::NotDump)),
        (
            b"#!rtpplay2.0",
            b"\n0123456789abcdef",
            broken(0, 9, DumpKind::NotDump),
        ),
        (
            &long_line,
            b"\n0123456789abcdef",
            broken(0, 1023, DumpKind::NotDump),
        ),
        (
            b"#!rtpplay1.0\n",
            b"0123456789abcde",
            broken(0, 13, DumpKind::TornHead),
        ),
        (
            whole_head,
            b"\0\x07\0\0\0\0\0\0",
            broken(0, 29, DumpKind::ShortLength),
        ),
        // A record of RTCP is given out, and counts.
        (
            whole_head,
            b"\0\x08\0\0\0\0\0\0\0\x09",
            broken(1, 37, DumpKind::TornHead),
        ),
        (
            whole_head,
            b"\0\x09\0\0\0\0\0\0.",
            Outcome {
                records: 1,
                fault: None,
            },
        ),
    ];
    for (front, back, outcome) in rows {
        let mut octets = Vec::from_slice(alloc, front)?;
        octets.extend_from_slice(back)?;
        let mut source = CalmSource::new(Octets::of(octets));
        assert_eq!(rt; read_through(alloc, &mut source), outcome, "{outcome:?}");
    }
    Ok(())
}

/// A read that fails in mid-stream is told, and told again, though the source would go on.
#[test]
fn failing_read(rt: HostRuntime) -> Result<(), Fail> {
    let alloc = rt.alloc();
    let sink = three_records(alloc)?;
    // Twenty-three reads for the line, one for the file head, two for the first record.
    let fail = Octets::of(Vec::from_slice(alloc, &[27])?);
    let octets = Octets::of(Vec::from_slice(alloc, sink.as_slice())?);
    let mut source = MemSource::new(octets, fail);
    let mut reader = Reader::new(&mut source);
    assert!(rt; reader.head().is_ok());
    let first = reader.next(alloc);
    assert!(rt; matches!(&first, Ok(Some(item)) if item.offset == 0 && item.plen == 172));
    assert!(rt; matches!(reader.next(alloc), Err(DumpFault::Read)));
    assert!(rt; matches!(reader.next(alloc), Err(DumpFault::Read)));
    Ok(())
}

/// The offset of a record that was found, whose memory is used again.
fn offset_of<S: Source>(reader: &mut Reader<S>, found: Option<DumpItem>) -> Option<u32>
    ensures { reader.new ≡ reader.old }
{
    let item = found?;
    let offset = item.offset;
    reader.reuse(item);
    Some(offset)
}

/// The offset of the next record before a limit. Its memory is used again.
#[tactic(auto, using(crate::proofs::Begun::begun_stays))]
fn offset_before<S: Source>(
    alloc: Global,
    reader: &mut Reader<S>,
    limit: u32,
) -> Result<Option<u32>, Fail>
    requires { IsBegun reader.old }
    ensures { IsBegun reader.new }
{
    let found = reader.next_before(alloc, limit).map_err(|_| "fault")?;
    Ok(offset_of(reader, found))
}

/// A record at or past a moment is read once and held back, and what follows it stays in the source.
#[test]
fn records_before_a_moment(rt: HostRuntime) -> Result<(), Fail> {
    let alloc = rt.alloc();
    let sink = three_records(alloc)?;
    let mut source = CalmSource::new(Octets::of(Vec::from_slice(alloc, sink.as_slice())?));
    let mut reader = Reader::new(&mut source);
    assert!(rt; reader.head().is_ok());
    assert_eq!(rt;
        offset_before(alloc, &mut reader, 0)?,
        None,
        "none before 0"
    );
    assert_eq!(rt;
        offset_before(alloc, &mut reader, 20)?,
        Some(0),
        "one before 20"
    );
    assert_eq!(rt; offset_before(alloc, &mut reader, 20)?, None, "no more");
    assert_eq!(rt;
        offset_before(alloc, &mut reader, 21)?,
        Some(20),
        "one before 21"
    );
    assert_eq!(rt;
        offset_before(alloc, &mut reader, 21)?,
        None,
        "no more again"
    );
    let found = reader.next(alloc).map_err(|_| "fault")?;
    assert_eq!(rt;
        offset_of(&mut reader, found),
        Some(40),
        "the one that was held back"
    );
    assert!(rt;
        matches!(reader.next_before(alloc, 99), Ok(None)),
        "the end"
    );

    let mut source = CalmSource::new(Octets::of(Vec::from_slice(alloc, sink.as_slice())?));
    let mut reader = Reader::new(&mut source);
    assert!(rt; reader.head().is_ok());
    assert!(rt; matches!(reader.next_before(alloc, 0), Ok(None)));
    let mut left = [0; 579];
    assert_eq!(rt;
        read_full(reader.into_source(), &mut left),
        Ok(360),
        "two records"
    );
    Ok(())
}
