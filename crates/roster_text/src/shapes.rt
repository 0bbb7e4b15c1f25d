//! The form of a line, by its words.

ghost use Rattle.std.specs.Prelude.{◌≡◌};
ghost use Rattle.std.specs.Option.{option_map};
ghost use Rattle.roster_text.specs.Lines.{fields_of};
ghost use Rattle.roster_text.specs.Grammar.{spells, begins, companded_of, coder_of, talker_of, talk_form, join_form, shape_of};
ghost use Rattle.roster_text.specs.Lent.{texts, talk_texts, listen_texts, told_line};

use crate::line::{Line, ListenWords, TalkWords};
use crate::words::split_field;
use g726_bits::Rate;

/// The form that a line of these words has; `None` where it has none of the five.
pub(crate) fn form<'a>(words: &[&'a [u8]]) -> Option<Line<'a>>
    ensures { option_map told_line result ≡ shape_of (texts words.now) }
{
    match words {
        [time, verb] => {
            if says(verb, "end") {
                Some(Line::End { time: *time })
            } else {
                None
            }
        }
        [time, verb, member] => {
            if says(verb, "leave") {
                Some(Line::Leave {
                    time: *time,
                    member: *member,
                })
            } else {
                None
            }
        }
        [time, verb, member, talk, last] => {
            if says(last, "-") {
                join(*time, *verb, *member, *talk, None)
            } else {
                None
            }
        }
        [time, verb, member, talk, rate, pt, ssrc, seq, stamp] => {
            let listen = ListenWords {
                rate: *rate,
                pt: *pt,
                ssrc: *ssrc,
                seq: *seq,
                stamp: *stamp,
                bundle: None,
            };
            join(*time, *verb, *member, *talk, Some(listen))
        }
        [time, verb, member, talk, rate, pt, ssrc, seq, stamp, bundle] => {
            let listen = ListenWords {
                rate: *rate,
                pt: *pt,
                ssrc: *ssrc,
                seq: *seq,
                stamp: *stamp,
                bundle: Some(*bundle),
            };
            join(*time, *verb, *member, *talk, Some(listen))
        }
        _ => None,
    }
}

/// The form of a join of these words.
fn join<'a>(
    time: &'a [u8],
    verb: &[u8],
    member: &'a [u8],
    talk: &'a [u8],
    listen: Option<ListenWords<'a>>,
) -> Option<Line<'a>>
    ensures { option_map told_line result ≡ join_form time.now verb.now member.now talk.now (option_map listen_texts listen.entry) }
{
    if !says(verb, "join") {
        return None;
    }
    let talk = sender(talk)?;
    Some(Line::Join {
        time,
        member,
        talk,
        listen,
    })
}

/// The form of a word of what a member sends.
fn sender(word: &[u8]) -> Option<Option<TalkWords>>
    ensures { option_map (option_map talk_texts) result ≡ talk_form word.now }
{
    if says(word, "-") {
        return Some(None);
    }
    let words = talker(word)?;
    Some(Some(words))
}

/// What a talker sends, by the fields of its word.
fn talker(word: &[u8]) -> Option<TalkWords>
    ensures { option_map talk_texts result ≡ talker_of (fields_of 58 word.now) }
{
    let (name, fields) = split_field(word, b':')?;
    let Some((pt, ssrc)) = split_field(fields, b':') else {
        return companded(name, fields);
    };
    match split_field(ssrc, b':') {
        None => {
            let rate = read_coder(name)?;
            Some(TalkWords::G726 { rate, pt, ssrc })
        }
        Some(_) => None,
    }
}

/// What a talker by a law of ITU-T G.711 sends, by the law's name and its SSRC.
fn companded<'a>(name: &[u8], ssrc: &'a [u8]) -> Option<TalkWords<'a>>
    ensures { option_map talk_texts result ≡ companded_of name.now ssrc.now }
{
    if says(name, "pcmu") {
        Some(TalkWords::Mu { ssrc })
    } else if says(name, "pcma") {
        Some(TalkWords::A { ssrc })
    } else {
        None
    }
}

/// The rate of the codes that a field names.
fn read_coder(name: &[u8]) -> Option<Rate>
    ensures { result ≡ coder_of name.now }
{
    if says(name, "g726-16") {
        Some(Rate::R16)
    } else if says(name, "g726-24") {
        Some(Rate::R24)
    } else if says(name, "g726-32") {
        Some(Rate::R32)
    } else if says(name, "g726-40") {
        Some(Rate::R40)
    } else {
        None
    }
}

/// Whether a word is this text.
pub(crate) fn says(word: &[u8], text: &str) -> bool
    ensures { result ≡ spells text.now word.now }
{
    word == text.as_bytes()
}

/// Whether a word begins with this text.
pub(crate) fn begins_with(word: &[u8], text: &str) -> bool
    ensures { result ≡ begins text.now word.now }
{
    word.starts_with(text.as_bytes())
}
