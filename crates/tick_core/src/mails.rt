//! The outbox: what each listener's packets are made of, and what goes out at a tick.

ghost use Rattle.std.specs.Prelude.{◌≡◌, ◌+◌, ◌*◌, ◌%◌, ◌^◌, ◌<◌, ◌≤◌, [], ◌∷◌, ◌++◌, Some, length, map, slice_get, vec_len, vec_capacity};
ghost use Rattle.std.specs.List.{AllByRecursion, flat_map};
ghost use Rattle.g726_bits.specs.State.{start};
ghost use Rattle.conference_spec.specs.Codec.{g726};
ghost use Rattle.conference_spec.specs.Packets.{packet_with};
ghost use Rattle.conference_spec.specs.Packets.{payloads_a_packet as payloads};
ghost use Rattle.book_lists.specs.Mailing as mailing;
ghost use Rattle.tick_core.specs.Opened.{IsServed};
ghost use Rattle.tick_core.specs.Posting.{IsReady, Turns, Walks, early};

use book_lists::{Mail, Seat};
use conference_spec::{JoinSpec, Packet, Stay};
use g726_codec::EncState;
use pack3551::{Bundle, Payload};
use rtp_head::Head;
use triple_table::Table;

/// How many payloads each packet of a listener carries.
fn payloads_a_packet(spec: &JoinSpec) -> u64
    ensures { result ≡ payloads spec.now }
{
    if spec.ticks == 0 {
        1
    } else {
        u64::from(spec.ticks)
    }
}

/// The mail of a listener that joins after so many closes.
pub(crate) fn first_mail(spec: JoinSpec, closed: u64) -> Mail
    ensures { result ≡ mailing.first_mail start spec closed }
{
    Mail {
        spec,
        from: closed,
        left: None,
        sent: 0,
        pending: Bundle::empty(),
        state: EncState::start(),
    }
}

/// The listener of this number leaves after so many closes.
pub(crate) fn mail_leaves(mails: &mut [Mail], member: u32, closed: u64)
    ensures { mails.new ≡ map (mailing.mail_goes member closed) mails.old }
{
    for mail in mails.iter_mut() {
        mark_leave(mail, member, closed);
    }
}

/// The same of one mail: it is the leaver's where its listener is present and has this number.
fn mark_leave(mail: &mut Mail, member: u32, closed: u64)
    ensures { mail.new ≡ mailing.mail_goes member closed mail.old }
{
    if mail.left.is_none() && mail.spec.member == member {
        mail.left = Some(closed);
    }
}

/// The packet that a mail sends next, with the payloads that it has.
fn packet_of(mail: &Mail) -> Packet
    requires { mail.now.spec.ticks ≤ 4 }
    ensures { result ≡ packet_with mail.now.spec mail.now.sent mail.now.pending }
{
    let spec = mail.spec;
    Packet {
        member: spec.member,
        head: Head {
            marker: mail.sent == 0,
            pt: spec.pt,
            seq: sequence_number(spec.first_seq, mail.sent),
            stamp: timestamp(spec.first_stamp, payloads_a_packet(&spec), mail.sent),
            ssrc: spec.ssrc,
        },
        payload: mail.pending,
    }
}

/// The sequence number of a listener's packet after `sent` others (RFC 3550, 5.1).
fn sequence_number(first: u16, sent: u64) -> u16
    ensures { result ≡ (first + sent) % 2 ^ 16 }
{
    first.wrapping_add((sent % 65536) as u16)
}

/// The timestamp of a listener's packet after `sent` others of so many payloads each, in samples (RFC 3550, 5.1).
fn timestamp(first: u32, payloads: u64, sent: u64) -> u32
    requires { payloads ≤ 4 }
    ensures { result ≡ (first + 160 * payloads * sent) % 2 ^ 32 }
{
    first.wrapping_add((160 * payloads * (sent % 4294967296) % 4294967296) as u32)
}

/// A mail takes what its listener's run has made; with that its packet may be full, and goes out.
fn take_result(mail: &mut Mail, state: &EncState, payload: &Payload, packets: &mut Vec<Packet>)
    requires ready { IsReady mail.old }
    requires room { vec_len packets.old < vec_capacity packets.old }
    ensures mail { mail.new ≡ mailing.with_result mail.old (state.now, payload.now) }
    ensures packets { packets.new.items ≡ packets.old.items ++ mailing.goes_out mail.old (state.now, payload.now) }
    ensures len { vec_len packets.new ≤ vec_len packets.old + 1 }
    ensures capacity { vec_capacity packets.old ≤ vec_capacity packets.new }
{
    mail.state = *state;
    mail.pending.push(payload);
    if mail.pending.len() as u64 == payloads_a_packet(&mail.spec) {
        packets.push_reserved(packet_of(mail));
        mail.pending = Bundle::empty();
        mail.sent += 1;
    }
}

/// What is left for a packet of a mail goes out.
fn send_last(mail: &Mail, packets: &mut Vec<Packet>)
    requires ready { IsReady mail.now }
    requires room { vec_len packets.old < vec_capacity packets.old }
    ensures packets { packets.new.items ≡ packets.old.items ++ mailing.last_of mail.now }
    ensures len { vec_len packets.new ≤ vec_len packets.old + 1 }
    ensures capacity { vec_capacity packets.old ≤ vec_capacity packets.new }
{
    if mail.pending.len() > 0 {
        packets.push_reserved(packet_of(mail));
    }
}

/// A mail's turn at a tick: it takes the result of the next seat where its listener was there, and sends what is left
/// where it was gone by then. The seats of the later mails come back.
fn turn<'a>(
    tick: u64,
    mail: &mut Mail,
    seats: &'a [Seat],
    table: &Table,
    packets: &mut Vec<Packet>,
) -> &'a [Seat]
    requires ready { IsReady mail.old }
    requires served { AllByRecursion (IsServed table.now.rows) seats.now }
    requires room { vec_len packets.old + early tick (mail.old ∷ []) ≤ vec_capacity packets.old }
    ensures turns { Turns tick table.now.rows seats.now mail.old packets.old.items mail.new result.now packets.new.items }
    ensures served { AllByRecursion (IsServed table.now.rows) result.now }
    ensures len { vec_len packets.new ≤ vec_len packets.old + early tick (mail.old ∷ []) }
    ensures capacity { vec_capacity packets.old ≤ vec_capacity packets.new }
{
    if tick < mail.from {
        return seats;
    }
    if !stays_after(tick, mail.left) {
        send_last(mail, packets);
        return seats;
    }
    let Some((seat, others)) = seats.split_first() else {
        return seats;
    };
    let Some(at) = seat.run else { unreachable!() };
    take_result(mail, table.after(at), table.payload(at), packets);
    others
}

/// Whether a listener that left after this many closes, if it did, was there at a tick.
pub(crate) fn stays_after(tick: u64, left: Option<u64>) -> bool
    ensures { result ≡ mailing.leaves_after tick left }
{
    match left {
        Some(left) => tick < left,
        None => true,
    }
}

/// Each mail has its turn at a tick, in the order of joins.
pub(crate) fn walk(
    tick: u64,
    mails: &mut [Mail],
    seats: &[Seat],
    table: &Table,
    packets: &mut Vec<Packet>,
)
    requires ready { AllByRecursion IsReady mails.old }
    requires served { AllByRecursion (IsServed table.now.rows) seats.now }
    requires room { vec_len packets.old + early tick mails.old ≤ vec_capacity packets.old }
    ensures walks { Walks tick table.now.rows seats.now mails.old packets.old.items mails.new packets.new.items }
{
    let Some((mail, others)) = mails.split_first_mut() else {
        return;
    };
    let left = turn(tick, mail, seats, table, packets);
    walk(tick, others, left, table, packets);
}

/// Whether a cut keeps anything of a mail: its listener is present, or is owed a packet.
fn is_kept(mail: &Mail) -> bool
    ensures { result ≡ mailing.is_kept mail.now }
{
    mail.left.is_none() || mail.pending.len() > 0
}

/// What a cut keeps of a mail, where so many ticks are closed and all of them are collected.
fn stay_of(mail: &Mail, closed: u64) -> Stay
    ensures { result ≡ mailing.stay_of_mail closed mail.now }
{
    Stay {
        spec: mail.spec,
        from: mail.from,
        is_here: mail.left.is_none(),
        ticks: closed.saturating_sub(mail.from),
        state: mail.state,
        pending: mail.pending,
    }
}

/// Adds what a cut keeps of each mail, in the order of joins.
pub(crate) fn keep_stays(stays: &mut Vec<Stay>, mails: &[Mail], closed: u64)
    requires room { vec_len stays.old + length mails.now ≤ vec_capacity stays.old }
    ensures items { stays.new.items ≡ stays.old.items ++ mailing.stays_kept closed mails.now }
    ensures capacity { vec_capacity stays.new ≡ vec_capacity stays.old }
{
    for mail in mails {
        if is_kept(mail) {
            stays.push_reserved(stay_of(mail, closed));
        }
    }
}

/// How many mails have something left.
pub(crate) fn count_rests(mails: &[Mail]) -> usize
    ensures { result ≡ length (flat_map mailing.last_of mails.now) }
{
    let mut rests = 0;
    for mail in mails {
        if mail.pending.len() > 0 {
            rests += 1;
        }
    }
    rests
}

/// The packet of the i-th mail that has something left, from 0.
pub(crate) fn rest_at(mails: &[Mail], i: usize) -> Packet
    requires ticks { AllByRecursion (λ m. m.spec.ticks ≤ 4) mails.now }
    requires there { i < length (flat_map mailing.last_of mails.now) }
    ensures { slice_get (flat_map mailing.last_of mails.now) i ≡ Some result }
{
    let mut before = i;
    for mail in mails {
        if mail.pending.len() > 0 {
            if before == 0 {
                return packet_of(mail);
            }
            before -= 1;
        }
    }
    unreachable!()
}
