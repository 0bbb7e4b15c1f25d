//! Rosters, and what they are read as.

use crate::{Command, Law, Listen, Roster, RosterError, RosterKind, Talk, Timed, read};
use g726_bits::Rate;
use std::alloc::Global;
use std::process::Abort;
use std::test::Fail;

/// What is wrong with a text, if anything is.
fn fault(alloc: Global, text: &str) -> Option<RosterError> {
    if text.len() > 1_048_576 {
        return None;
    }
    match read(alloc, text.as_bytes()) {
        Ok(_roster) => None,
        Err(error) => Some(error),
    }
}

/// The roster that a text spells, if it spells one.
fn told(alloc: Global, text: &str) -> Option<Roster> {
    if text.len() > 1_048_576 {
        return None;
    }
    read(alloc, text.as_bytes()).ok()
}

/// Fails where a text isn't refused at this line for this reason.
fn refused(rt: &impl Abort, alloc: Global, text: &str, line: u32, kind: RosterKind) {
    assert_eq!(rt; fault(alloc, text), Some(RosterError::Bad { line, kind }));
}

/// Rosters with one fault each: the line and the kind that they are refused with.
const REFUSED: [(&str, u32, RosterKind); 20] = [
    ("0 jion 1", 1, RosterKind::Words),
    ("0 join 1 -:5 -", 1, RosterKind::Words),
    ("0\u{b}end", 1, RosterKind::Words),
    ("x end", 1, RosterKind::Number),
    ("4294967296 end", 1, RosterKind::Number),
    ("00000000000 end", 1, RosterKind::Number),
    ("0 join 1 pcmu: -", 1, RosterKind::Number),
    ("0 join 1 - 33 95 7 65536 0", 1, RosterKind::Number),
    ("0 join 1 - 33 95 7 0 0", 1, RosterKind::Rate),
    ("0 join 1 - 016 96 7 0 0", 1, RosterKind::Rate),
    ("0 join 1 - 32 95 7 0 0", 1, RosterKind::PayType),
    ("0 join 1 - 32 128 7 0 0", 1, RosterKind::PayType),
    ("0 leave 1", 1, RosterKind::Absent),
    ("86400001 end", 1, RosterKind::TicksOver),
    ("5 join 1 - -\n0 end", 2, RosterKind::Back),
    (
        "0 join 1 pcmu:5 -\n0 join 2 pcma:5 -",
        2,
        RosterKind::SsrcTaken,
    ),
    ("0 end\n0 leave 1", 2, RosterKind::AfterEnd),
    ("0 join 1 - -\n0 leave 1\n0 join 1 - -", 3, RosterKind::Used),
    ("", 1, RosterKind::NoEnd),
    ("# nothing\n", 2, RosterKind::NoEnd),
];

#[test]
fn each_fault_at_its_line(rt: HostRuntime) -> Result<(), Fail> {
    for (text, line, kind) in REFUSED {
        refused(&rt, rt.alloc(), text, line, kind);
    }
    Ok(())
}

/// A talker and a listener, by all that their line says.
#[test]
fn commands_of_a_roster(rt: HostRuntime) -> Result<(), Fail> {
    let alloc = rt.alloc();
    let text =
        "# two\n0 join 1 pcmu:5 -\r\n\t\n0 leave 1\n5 join 2 pcma:5 40 127 7 65535 4294967295\n21 end";
    let roster = read(alloc, text.as_bytes()).ok().ok_or("refused")?;
    assert_eq!(rt; roster.len(), 3);
    assert_eq!(rt; roster.end(), 21);
    assert_eq!(rt; roster.ticks(), 2);
    let command = Command::Join {
        member: 2,
        talk: Some(Talk {
            law: Law::A,
            ssrc: 5,
        }),
        listen: Some(Listen {
            rate: Rate::R40,
            pt: 127,
            ssrc: 7,
            first_seq: 65535,
            first_stamp: 4_294_967_295,
            ticks: 1,
        }),
    };
    assert!(rt;
        roster.timed(1)
            == Timed {
                at: 0,
                command: Command::Leave { member: 1 }
            }
    );
    assert!(rt; roster.timed(2) == Timed { at: 5, command });
    Ok(())
}

/// What a member sends, and what its word is refused for.
#[test]
fn talkers_by_their_words(rt: HostRuntime) -> Result<(), Fail> {
    let alloc = rt.alloc();
    let rate = |rate| Law::G726 { rate, pt: 100 };
    for (word, law) in [
        ("pcmu:5", Law::Mu),
        ("pcma:5", Law::A),
        ("g726-16:100:5", rate(Rate::R16)),
        ("g726-24:100:5", rate(Rate::R24)),
        ("g726-32:100:5", rate(Rate::R32)),
        ("g726-40:100:5", rate(Rate::R40)),
        (
            "g726-40:0000000127:05",
            Law::G726 {
                rate: Rate::R40,
                pt: 127,
            },
        ),
    ] {
        let mut text = String::new(alloc);
        write!(text, "0 join 1 {word} -\n0 end\n")?;
        let roster = told(alloc, text.as_str()).ok_or("refused")?;
        let command = Command::Join {
            member: 1,
            talk: Some(Talk { law, ssrc: 5 }),
            listen: None,
        };
        assert!(rt; roster.len() == 1 && roster.timed(0) == Timed { at: 0, command });
    }
    for (line, kind) in [
        ("0 join 1 pcmu -", RosterKind::Words),
        ("0 join 1 pcmu:5:6 -", RosterKind::Words),
        ("0 join 1 pcml:5 -", RosterKind::Words),
        ("0 join 1 g726-20:100:5 -", RosterKind::Words),
        ("0 join 1 g726:100:5 -", RosterKind::Words),
        ("0 join 1 g726-32:100 -", RosterKind::Words),
        ("0 join 1 g726-32:100:5: -", RosterKind::Words),
        ("0 join 1 g726-32::5 -", RosterKind::Number),
        ("0 join 1 g726-32:100: -", RosterKind::Number),
        ("0 join 1 g726-32:95:x -", RosterKind::Number),
        ("0 join 1 g726-32:95:5 33 96 7 65536 0", RosterKind::Number),
        ("0 join 1 g726-32:95:5 33 96 7 0 0", RosterKind::Rate),
        ("0 join 1 g726-32:95:5 -", RosterKind::PayType),
        ("0 join 1 g726-32:128:5 -", RosterKind::PayType),
        ("0 join 1 g726-32:95:5 32 96 7 0 0 5", RosterKind::PayType),
    ] {
        refused(&rt, alloc, line, 1, kind);
    }
    refused(
        &rt,
        alloc,
        "0 join 1 g726-32:100:5 -\n0 join 2 pcma:5 -",
        2,
        RosterKind::SsrcTaken,
    );
    Ok(())
}

/// How many ticks a packet carries, and what the word for it is refused for.
#[test]
fn bundles_by_their_words(rt: HostRuntime) -> Result<(), Fail> {
    let alloc = rt.alloc();
    for (word, ticks) in [("", 1u8), ("1", 1), ("2", 2), ("3", 3), ("4", 4)] {
        let mut text = String::new(alloc);
        write!(text, "0 join 1 - 32 96 7 0 0 {word}\n0 end\n")?;
        let roster = told(alloc, text.as_str()).ok_or("refused")?;
        let command = Command::Join {
            member: 1,
            talk: None,
            listen: Some(Listen {
                rate: Rate::R32,
                pt: 96,
                ssrc: 7,
                first_seq: 0,
                first_stamp: 0,
                ticks,
            }),
        };
        assert!(rt; roster.len() == 1 && roster.timed(0) == Timed { at: 0, command });
    }
    for (line, kind) in [
        ("9 join 1 - 32 96 7 0 0 5", RosterKind::Bundle),
        ("9 join 1 - 32 96 7 0 0 0", RosterKind::Bundle),
        ("9 join 1 - 32 96 7 0 0 01", RosterKind::Bundle),
        ("9 join 1 - 32 96 7 0 0 -", RosterKind::Bundle),
        ("0 join 1 - 32 96 7 0 0 5", RosterKind::Bundle),
        ("9 join 1 - 32 128 7 0 0 5", RosterKind::PayType),
        ("9 join 1 - 32 96 7 0 0 1 1", RosterKind::Words),
        ("9 join 1 - 2", RosterKind::Words),
        ("0 join 1 - 32 96 7 0 0 4", RosterKind::Back),
    ] {
        let mut text = String::new(alloc);
        write!(text, "5 join 2 - -\n{line}")?;
        refused(&rt, alloc, text.as_str(), 2, kind);
    }
    refused(
        &rt,
        alloc,
        "0 join 1 - 32 96 7 0 0 5",
        1,
        RosterKind::Bundle,
    );
    Ok(())
}

/// One member too many, and the longest roster: 1,048,576 octets, with 1,000 members present most of the time.
#[test]
fn rosters_at_the_limits(rt: HostRuntime) -> Result<(), Fail> {
    let alloc = rt.alloc();
    let mut text = String::new(alloc);
    for n in 0..1025u32 {
        write!(text, "0 join {n} - -\n")?;
    }
    refused(&rt, alloc, text.as_str(), 1025, RosterKind::Full);

    let mut text = String::new(alloc);
    for n in 0..40_000u32 {
        if text.len() < 1_048_500 {
            write!(text, "0 join {n} - -\n")?;
            if n >= 1000 {
                let leaver = n - 1000;
                write!(text, "0 leave {leaver}\n")?;
            }
        }
    }
    for _ in 0..100u32 {
        if text.len() < 1_048_570 {
            text.push_str("#")?;
        }
    }
    text.push_str("\n0 end")?;
    assert_eq!(rt; text.len(), 1_048_576);
    assert_eq!(rt; fault(alloc, text.as_str()), None);
    Ok(())
}
