//! What a tick hears.
ghost use Rattle.std.specs.Prelude.{◌≡◌, ◌≤◌, ◌<◌, ◌+◌, ◌*◌, ◌^◌, true, ℕ, [], ◌∷◌, length};
ghost use Rattle.session_spec.specs.Talkers.{Events};
ghost use Rattle.session_spec.specs.Events.{after_records};
ghost use Rattle.live_spec.specs.Heard.{is_control};
ghost use Rattle.live_link.specs.Rounds.{Looks, Listens, speech, with_datagrams};

use crate::controls::{Controls, is_control};
use desk_run::DeskSide;
use edge_io::Failed;
use udp_edge::{Clock, Link};

/// How many octets of a datagram are looked at.
pub const BUFFER_LEN: usize = 65_527;

/// The most rounds of a tick.
const ROUNDS: u32 = 65_536;

/// Hears until a tick's time is over: looks for a datagram and then at the clock, again and again, up to and with the first look
/// at which `20 * (tick + 1)` milliseconds have gone since `start`, and at most 65,536 times.
///
/// A datagram goes to the desk as a packet that arrives; one of RTCP is counted.
pub fn listen<L: Link, C: Clock, D: DeskSide>(
    tick: u32,
    start: u64,
    link: &mut L,
    clock: &mut C,
    desk: &mut D,
    buf: &mut [u8],
    controls: &mut Controls,
)
    requires open { L.is_open link.old ≡ true }
    requires early { tick < 4320000 }
    requires room { length buf.old ≡ BUFFER_LEN }
    requires few { controls.old.heard + controls.old.refused ≤ 65536 * tick }
    ensures opened { L.is_open link.new ≡ true }
    ensures plan { D.plan desk.new ≡ D.plan desk.old }
    ensures heard { Listens (L.traffic link.old) (L.traffic link.new) (C.answers clock.old) (C.answers clock.new) tick start controls.old controls.new
        (λ ds. (h : Events) → D.stands desk.old h → D.stands desk.new (after_records (speech tick ds) h)) }
    ensures few { controls.new.heard + controls.new.refused ≤ 65536 * (tick + 1) }
{
    let end = 20 * (u64::from(tick) + 1);
    'rounds: for _round in 0..ROUNDS {
        look(link, desk, buf, controls);
        let time = clock.now();
        let gone = time.saturating_sub(start);
        if gone >= end {
            return;
        }
    }
}

/// Looks for a datagram once. A look that fails finds nothing.
fn look<L: Link, D: DeskSide>(link: &mut L, desk: &mut D, buf: &mut [u8], controls: &mut Controls)
    requires open { L.is_open link.old ≡ true }
    requires room { length buf.old ≡ BUFFER_LEN }
    requires few { controls.old.heard + controls.old.refused < 2 ^ 63 }
    ensures opened { L.is_open link.new ≡ true }
    ensures plan { D.plan desk.new ≡ D.plan desk.old }
    ensures heard { Looks (L.traffic link.old) (L.traffic link.new) controls.old controls.new
        (λ ds. (tick : ℕ) (h : Events) → D.stands desk.old h → D.stands desk.new (after_records (speech tick ds) h)) }
{
    match link.recv(buf) {
        Ok(Some(got)) => {
            if got.len > 0 {
                hear(&buf[..got.len], desk, controls);
            }
        }
        Ok(None) => {}
        Err(Failed) => {}
    }
}

/// Hears a datagram: it goes to the desk, or is counted as one of RTCP.
fn hear<D: DeskSide>(octets: &[u8], desk: &mut D, controls: &mut Controls)
    requires some { 0 < length octets.now }
    requires short { length octets.now ≤ BUFFER_LEN }
    requires few { controls.old.heard + controls.old.refused < 2 ^ 63 }
    ensures plan { D.plan desk.new ≡ D.plan desk.old }
    ensures stands { (tick : ℕ) (h : Events) → D.stands desk.old h → D.stands desk.new (after_records (speech tick (octets.now ∷ [])) h) }
    ensures counted { controls.new ≡ with_datagrams controls.old (octets.now ∷ []) }
{
    if is_control(octets) {
        controls.count(octets);
    } else {
        desk.arrive(octets.len() as u16, octets);
    }
}
