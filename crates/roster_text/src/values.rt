//! What a line says by its words alone.

ghost use Rattle.std.specs.Prelude.{◌≡◌};
ghost use Rattle.std.specs.Option.{option_map};
ghost use Rattle.roster_text.specs.Grammar.{rate_of, bundle_of, sends_of, gets_of, own_type, talk_of, listen_of, entry_of, said_by};
ghost use Rattle.roster_text.specs.Lent.{texts, text, talk_texts, listen_texts, told_line};

use crate::commands::{Command, Law, Listen, Talk, Timed};
use crate::entry::Entry;
use crate::faults::RosterKind;
use crate::line::{Line, ListenWords, TalkWords};
use crate::numbers::{Gets, Sends};
use crate::shapes::{form, says};
use crate::words::number;
use g726_bits::Rate;

/// The greatest sequence number.
const GREATEST_SEQ: u32 = 65_535;

/// What a line of these words says, or what is wrong with it by itself.
pub(crate) fn read_words(words: &[&[u8]]) -> Result<Entry, RosterKind>
    ensures { result ≡ said_by (texts words.now) }
{
    let line = form(words).ok_or(RosterKind::Words)?;
    read_entry(line)
}

/// What a line of a form says.
fn read_entry(line: Line) -> Result<Entry, RosterKind>
    ensures { result ≡ entry_of (told_line line.entry) }
{
    match line {
        Line::End { time } => {
            let at = number(time, u32::MAX).ok_or(RosterKind::Number)?;
            Ok(Entry::Ends(at))
        }
        Line::Leave { time, member } => {
            let at = number(time, u32::MAX).ok_or(RosterKind::Number)?;
            let member = number(member, u32::MAX).ok_or(RosterKind::Number)?;
            let command = Command::Leave { member };
            Ok(Entry::Says(Timed { at, command }))
        }
        Line::Join {
            time,
            member,
            talk,
            listen,
        } => {
            let at = number(time, u32::MAX).ok_or(RosterKind::Number)?;
            let member = number(member, u32::MAX).ok_or(RosterKind::Number)?;
            let sends = read_sends(talk)?;
            let gets = read_gets(listen)?;
            let talk = read_talk(sends)?;
            let listen = read_listen(gets)?;
            let command = Command::Join {
                member,
                talk,
                listen,
            };
            Ok(Entry::Says(Timed { at, command }))
        }
    }
}

/// What a member sends, by its numbers.
fn read_sends(words: Option<TalkWords>) -> Result<Option<Sends>, RosterKind>
    ensures { result ≡ sends_of (option_map talk_texts words.entry) }
{
    let Some(words) = words else {
        return Ok(None);
    };
    match words {
        TalkWords::Mu { ssrc } => {
            let ssrc = number(ssrc, u32::MAX).ok_or(RosterKind::Number)?;
            Ok(Some(Sends::Mu { ssrc }))
        }
        TalkWords::A { ssrc } => {
            let ssrc = number(ssrc, u32::MAX).ok_or(RosterKind::Number)?;
            Ok(Some(Sends::A { ssrc }))
        }
        TalkWords::G726 { rate, pt, ssrc } => {
            let pt = number(pt, u32::MAX).ok_or(RosterKind::Number)?;
            let ssrc = number(ssrc, u32::MAX).ok_or(RosterKind::Number)?;
            Ok(Some(Sends::G726 { rate, pt, ssrc }))
        }
    }
}

/// What a member gets, by its numbers and its rate.
fn read_gets(words: Option<ListenWords>) -> Result<Option<Gets>, RosterKind>
    ensures { result ≡ gets_of (option_map listen_texts words.entry) }
{
    let Some(words) = words else {
        return Ok(None);
    };
    let pt = number(words.pt, u32::MAX).ok_or(RosterKind::Number)?;
    let ssrc = number(words.ssrc, u32::MAX).ok_or(RosterKind::Number)?;
    let seq = number(words.seq, GREATEST_SEQ).ok_or(RosterKind::Number)?;
    let stamp = number(words.stamp, u32::MAX).ok_or(RosterKind::Number)?;
    let rate = read_rate(words.rate).ok_or(RosterKind::Rate)?;
    Ok(Some(Gets {
        rate,
        pt,
        ssrc,
        seq: seq as u16,
        stamp,
        ticks: read_bundle(words.bundle),
    }))
}

/// What a member sends, where its payload type is right.
fn read_talk(sends: Option<Sends>) -> Result<Option<Talk>, RosterKind>
    ensures { result ≡ talk_of sends }
{
    let Some(sends) = sends else {
        return Ok(None);
    };
    match sends {
        Sends::Mu { ssrc } => Ok(Some(Talk { law: Law::Mu, ssrc })),
        Sends::A { ssrc } => Ok(Some(Talk { law: Law::A, ssrc })),
        Sends::G726 { rate, pt, ssrc } => {
            let pt = payload_type(pt).ok_or(RosterKind::PayType)?;
            let law = Law::G726 { rate, pt };
            Ok(Some(Talk { law, ssrc }))
        }
    }
}

/// What a member gets, where its payload type and its bundle are right.
fn read_listen(gets: Option<Gets>) -> Result<Option<Listen>, RosterKind>
    ensures { result ≡ listen_of gets }
{
    let Some(gets) = gets else {
        return Ok(None);
    };
    let pt = payload_type(gets.pt).ok_or(RosterKind::PayType)?;
    let ticks = gets.ticks.ok_or(RosterKind::Bundle)?;
    Ok(Some(Listen {
        rate: gets.rate,
        pt,
        ssrc: gets.ssrc,
        first_seq: gets.seq,
        first_stamp: gets.stamp,
        ticks,
    }))
}

/// The payload type of a number: 96 to 127.
fn payload_type(number: u32) -> Option<u8>
    ensures { result ≡ own_type number }
{
    if number >= 96 && number <= 127 {
        Some(number as u8)
    } else {
        None
    }
}

/// The ticks that a packet carries, which a word tells; one tick without it.
fn read_bundle(word: Option<&[u8]>) -> Option<u8>
    ensures { result ≡ bundle_of (text word.entry) }
{
    let Some(word) = word else {
        return Some(1);
    };
    if says(word, "1") {
        Some(1)
    } else if says(word, "2") {
        Some(2)
    } else if says(word, "3") {
        Some(3)
    } else if says(word, "4") {
        Some(4)
    } else {
        None
    }
}

/// The rate that a word names.
fn read_rate(word: &[u8]) -> Option<Rate>
    ensures { result ≡ rate_of word.now }
{
    if says(word, "16") {
        Some(Rate::R16)
    } else if says(word, "24") {
        Some(Rate::R24)
    } else if says(word, "32") {
        Some(Rate::R32)
    } else if says(word, "40") {
        Some(Rate::R40)
    } else {
        None
    }
}
