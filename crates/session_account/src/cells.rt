//! The numbers of each row, with their names.
ghost use Rattle.std.specs.Prelude.{◌≡◌, map, IfOk};
ghost use Rattle.session_account.specs.Cells.{said};
ghost use Rattle.session_account.specs.Document.{session_row, torn_row, crowd_row, talker_row, stream_row, listener_row, rate_row, per_hundred, missing};

use crate::counts::{Crowd, Torn};
use crate::streams::Stream;
use crate::visits::Listener;
use crate::voices::Talker;
use edge_io::Memory;
use g726_bits::Rate;
use session_spec::Summary;

/// A number with its name.
#[derive(Clone, Copy)]
pub(crate) struct Cell {
    pub(crate) name: &'static str,
    pub(crate) value: u64,
}

fn named(name: &'static str, value: u64) -> Cell
    ensures name { result.name.now ≡ name.now }
    ensures value { result.value ≡ value }
{
    Cell { name, value }
}

pub(crate) fn session_cells(s: Summary) -> [Cell; 4]
    ensures { map said result ≡ session_row s }
{
    [
        named("ticks", s.ticks),
        named("runs", s.runs),
        named("packets", s.packets),
        named("refused", s.refused),
    ]
}

pub(crate) fn torn_cells(t: Torn) -> [Cell; 6]
    ensures { map said result ≡ torn_row t }
{
    [
        named("cut", t.cut),
        named("short", t.short),
        named("version", t.version),
        named("sources", t.sources),
        named("extension", t.extension),
        named("padding", t.padding),
    ]
}

pub(crate) fn crowd_cells(c: Crowd) -> [Cell; 4]
    ensures { map said result ≡ crowd_row c }
{
    [
        named("none", c.none),
        named("one", c.one),
        named("two", c.two),
        named("three", c.three),
    ]
}

pub(crate) fn talker_cells(t: Talker) -> [Cell; 3]
    ensures { map said result ≡ talker_row t }
{
    [
        named("member", u64::from(t.member)),
        named("ssrc", u64::from(t.ssrc)),
        named("heard", t.heard),
    ]
}

pub(crate) fn stream_cells(ssrc: u32, s: &Stream) -> [Cell; 15]
    ensures { map said result ≡ stream_row (ssrc, s.now) }
{
    [
        named("ssrc", u64::from(ssrc)),
        named("packets", s.packets),
        named("missing", missing(s)),
        named("taken", s.taken),
        named("octets", s.octets),
        named("new", s.fresh),
        named("lost", s.lost),
        named("restarted", s.restarted),
        named("late", s.late),
        named("early", s.early),
        named("unknown", s.unknown),
        named("other_type", s.other_type),
        named("empty", s.empty),
        named("too_long", s.too_long),
        named("ragged", s.ragged),
    ]
}

/// How many sequence numbers no packet brought, where none came twice.
fn missing(s: &Stream) -> u64
    ensures { result ≡ missing s.now }
{
    s.next
        .saturating_sub(u64::from(s.first))
        .saturating_sub(s.packets)
}

pub(crate) fn listener_cells(l: Listener) -> [Cell; 4]
    ensures { map said result ≡ listener_row l }
{
    [
        named("member", u64::from(l.member)),
        named("rate", u64::from(8 * l.rate.bits())),
        named("ticks", l.ticks),
        named("packets", l.packets),
    ]
}

/// `hundred` is how many packets a hundred runs serve.
pub(crate) fn rate_cells(rate: Rate, packets: u64, runs: u64, hundred: u64) -> [Cell; 4]
    requires { hundred ≡ per_hundred packets runs }
    ensures { map said result ≡ rate_row rate packets runs }
{
    [
        named("rate", u64::from(8 * rate.bits())),
        named("packets", packets),
        named("runs", runs),
        named("packets_per_100_runs", hundred),
    ]
}

/// Packets for a hundred runs, rounded down. `Memory` where 64 bits can't count on.
pub(crate) fn per_hundred(packets: u64, runs: u64) -> Result<u64, Memory>
    ensures { IfOk result (λ count. count ≡ per_hundred packets runs) }
{
    match 100_u64.checked_mul(packets) {
        None => Err(Memory),
        Some(hundred) => Ok(hundred.checked_div(runs).unwrap_or(0)),
    }
}
