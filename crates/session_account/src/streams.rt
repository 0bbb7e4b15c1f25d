//! What came of each SSRC.
ghost use Rattle.std.specs.Prelude.{◌≡◌, ◌<◌, length, slice_get, Some, OnOk, IfOk};
ghost use Rattle.session_spec.specs.declared.Arrival.TheVariants as arrivals;
ghost use Rattle.session_account.specs.Arriving.{begins, reached, samples_in, answered, counted, with_packet, ssrc_heard, heard, nothing};

use crate::counts::{Torn, more};
use edge_io::Memory;
use indexmap::IndexMap;
use roster_text::Law;
use rtp_head::{Parsed, parse};
use session_spec::Arrival;
use std::alloc::Global;
use std::marker::Model;

/// What the packets of one SSRC came to, whether a member talks with it or not.
#[derive(Clone, Copy, Debug, PartialEq, Eq)]
pub struct Stream {
    /// The sequence number of the first packet.
    pub first: u16,
    /// The one after the highest sequence number, counted on past 2^16.
    pub next: u64,
    /// The packets that came, whatever became of them.
    pub packets: u64,
    /// Those that a line took without starting anew.
    pub taken: u64,
    /// The octets of the payloads of these.
    pub octets: u64,
    /// The samples of these that a line kept.
    pub fresh: u64,
    /// Those that it didn't: they came too late, or stood there already.
    pub lost: u64,
    /// The packets that started a line anew.
    pub restarted: u64,
    /// Those that ended at or before their line's position.
    pub late: u64,
    /// Those that ended more than 3,200 samples past it.
    pub early: u64,
    /// Those that came when no member talked with the SSRC.
    pub unknown: u64,
    /// Those whose payload type isn't the talker's.
    pub other_type: u64,
    /// Those without a payload.
    pub empty: u64,
    /// Those of more than 200 ms.
    pub too_long: u64,
    /// Those whose octets aren't whole codes.
    pub ragged: u64,
}

impl Stream {
    /// No packet, before the first one, which has this sequence number.
    fn before(seq: u16) -> Stream
        ensures { result ≡ begins seq }
    {
        Stream {
            first: seq,
            next: u64::from(seq),
            packets: 0,
            taken: 0,
            octets: 0,
            fresh: 0,
            lost: 0,
            restarted: 0,
            late: 0,
            early: 0,
            unknown: 0,
            other_type: 0,
            empty: 0,
            too_long: 0,
            ragged: 0,
        }
    }

    /// Counts a packet and what became of it. `Memory` where 64 bits can't count on.
    fn count(&mut self, law: Option<Law>, arrival: Arrival, parsed: &Parsed) -> Result<(), Memory>
        ensures { OnOk result (self.new ≡ counted law arrival parsed.now self.old) }
    {
        more(&mut self.packets, 1)?;
        self.next = reach(parsed.head.seq, self.next)?;
        self.answer(law, arrival, parsed.to.saturating_sub(parsed.from) as u64)
    }

    /// Counts what became of a packet with a payload of so many octets.
    fn answer(&mut self, law: Option<Law>, arrival: Arrival, octets: u64) -> Result<(), Memory>
        ensures { OnOk result (self.new ≡ answered law arrival octets self.old) }
    {
        match arrival {
            Arrival::Took { new } => self.take(law, new, octets),
            Arrival::Restarted => more(&mut self.restarted, 1),
            Arrival::Unknown => more(&mut self.unknown, 1),
            Arrival::PayloadType => more(&mut self.other_type, 1),
            Arrival::Empty => more(&mut self.empty, 1),
            Arrival::TooLong => more(&mut self.too_long, 1),
            Arrival::Ragged => more(&mut self.ragged, 1),
            Arrival::Late => more(&mut self.late, 1),
            Arrival::Early => more(&mut self.early, 1),
            Arrival::Cut | Arrival::Head(_) => Ok(()),
        }
    }

    /// Counts a packet that was taken, with so many new samples.
    fn take(&mut self, law: Option<Law>, fresh: u32, octets: u64) -> Result<(), Memory>
        ensures { OnOk result (self.new ≡ answered law (arrivals.Took fresh) octets self.old) }
    {
        let samples = samples_in(law, octets)?;
        more(&mut self.taken, 1)?;
        more(&mut self.octets, octets)?;
        more(&mut self.fresh, u64::from(fresh))?;
        more(&mut self.lost, samples.saturating_sub(u64::from(fresh)))
    }
}

/// How many samples so many octets of a payload are. `Memory` where 64 bits can't count their bits.
fn samples_in(law: Option<Law>, octets: u64) -> Result<u64, Memory>
    ensures { IfOk result (λ n. n ≡ samples_in law octets) }
{
    match law {
        None => Ok(0),
        Some(Law::Mu | Law::A) => Ok(octets),
        Some(Law::G726 { rate, .. }) => match octets.checked_mul(8) {
            Some(bits) => Ok(bits / u64::from(rate.bits())),
            None => Err(Memory),
        },
    }
}

/// The SSRC of a packet of so many octets on the wire, of which these were kept, if it is whole and has a head.
pub fn ssrc_of(plen: u16, octets: &[u8]) -> Option<u32>
    ensures { result ≡ ssrc_heard plen octets.now }
{
    let len = usize::from(plen);
    if octets.len() < len {
        return None;
    }
    match parse(&octets[..len]) {
        Ok(parsed) => Some(parsed.head.ssrc),
        Err(_) => None,
    }
}

/// The one after the highest sequence number, where one more packet came: it is ahead where it is fewer than 2^15 on.
fn reach(seq: u16, next: u64) -> Result<u64, Memory>
    ensures { IfOk result (λ n. n ≡ reached seq next) }
{
    let steps = (u64::from(seq) + 65_536 - next % 65_536) % 65_536;
    if steps >= 32_768 {
        return Ok(next);
    }
    let mut reached = next;
    more(&mut reached, steps + 1)?;
    Ok(reached)
}

/// What arrived: what had no head, and the packets of each SSRC, in the order of their first packets.
#[derive(Drop)]
pub struct Streams {
    torn: Torn,
    map: IndexMap<u32, Stream>,
}

impl Model for Streams {
    ghost use Rattle.session_account.specs.Arriving.{Arrived};

    ghost Value = { Arrived };

    ghost view = { λ s. record { torn = s.torn; streams = s.map.entries } };
}

impl Streams {
    /// Nothing has arrived. Takes no memory.
    pub fn new(alloc: Global) -> Streams
        ensures { result ≡ nothing }
    {
        Streams {
            torn: Torn::none(),
            map: IndexMap::new(alloc),
        }
    }

    /// Counts what arrived, and what became of it; `law` is how somebody talked with its SSRC. `Memory` where there was
    /// none, or 64 bits can't count on.
    pub fn note(
        &mut self,
        law: Option<Law>,
        arrival: Arrival,
        plen: u16,
        octets: &[u8],
    ) -> Result<(), Memory>
        ensures { OnOk result (self.new ≡ heard law arrival plen octets.now self.old) }
    {
        self.torn.note(arrival)?;
        let len = usize::from(plen);
        if octets.len() < len {
            return Ok(());
        }
        match parse(&octets[..len]) {
            Ok(parsed) => count_in(&mut self.map, law, arrival, &parsed),
            Err(_) => Ok(()),
        }
    }

    /// How many SSRCs there were.
    pub fn len(&self) -> usize
        ensures { result ≡ length self.now.streams }
    {
        self.map.len()
    }

    /// The SSRC at place `i`, counted from 0, and what its packets came to.
    pub fn stream(&self, i: usize) -> (u32, Stream)
        requires { i < length self.now.streams }
        ensures { slice_get self.now.streams i ≡ Some result }
    {
        match self.map.get_index(i) {
            Some((ssrc, stream)) => (*ssrc, *stream),
            None => unreachable!(),
        }
    }

    /// What had no head.
    pub fn torn(&self) -> Torn
        ensures { result ≡ self.now.torn }
    {
        self.torn
    }
}

/// Counts a packet in the row of its SSRC.
fn count_in(
    map: &mut IndexMap<u32, Stream>,
    law: Option<Law>,
    arrival: Arrival,
    parsed: &Parsed,
) -> Result<(), Memory>
    ensures { OnOk result (map.new.entries ≡ with_packet law arrival parsed.now map.old.entries) }
{
    let head = parsed.head;
    let mut stream = match map.get(&head.ssrc) {
        Some(stream) => *stream,
        None => Stream::before(head.seq),
    };
    stream.count(law, arrival, parsed)?;
    match map.insert(head.ssrc, stream) {
        Ok(_) => Ok(()),
        Err(_) => Err(Memory),
    }
}
