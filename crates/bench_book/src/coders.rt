//! The encoder runs of a conference with no Book: an encoder for each listener.

ghost use Rattle.std.specs.Prelude.{◌≡◌, ◌+◌, ◌*◌, ◌≤◌, ◌^◌, length, IfOk, vec_len};

use crate::stops::Counts;
use crate::voice::heard;
use edge_io::Memory;
use g726_bits::{Frame, Rate};
use g726_codec::{EncState, Meter, encode};
use pack3551::Payload;
use std::alloc::Global;

/// The rates of the listeners that join at one tick.
const RATES: [Rate; 4] = [Rate::R16, Rate::R24, Rate::R32, Rate::R40];

/// The rate of the i-th listener, from 0.
pub fn rate_of(i: u64) -> Rate {
    RATES[(i % 4) as usize]
}

/// One listener's encoder, with the payload that it made last.
#[derive(Drop)]
struct Coder {
    rate: Rate,
    state: EncState,
    payload: Option<Payload>,
}

/// Runs an encoder for each listener over each tick, at the ticks and from the states that the listeners of a conference
/// would have of whom no two share a run.
pub fn encode_alone(alloc: Global, listeners: u64, ticks: u64) -> Result<Counts, Memory>
    requires listeners { listeners ≤ 1024 }
    requires ticks { ticks ≤ 80000 }
    ensures runs { IfOk result (λ c. c.runs ≡ ticks * listeners) }
    ensures packets { IfOk result (λ c. c.packets ≡ ticks * listeners) }
{
    let mut meter = Meter::new();
    let mut coders = join_coders(alloc, listeners, &mut meter)?;
    let before = meter.issued();
    for tick in 0..ticks {
        encode_each(&mut coders, &mut meter, &heard(listeners / 4 + tick));
    }
    let runs = meter.issued() - before;
    Ok(Counts {
        runs,
        packets: runs,
    })
}

/// The encoders of listeners that joined four at a tick, one at each rate.
fn join_coders(alloc: Global, listeners: u64, meter: &mut Meter) -> Result<Vec<Coder>, Memory>
    requires listeners { listeners ≤ 1024 }
    requires fresh { meter.old ≡ 0 }
    ensures coders { IfOk result (λ coders. length coders.items ≡ listeners) }
    ensures meter { meter.new ≤ 1048576 }
{
    let mut coders = Vec::new(alloc);
    for i in 0..listeners {
        coders.push(Coder {
            rate: rate_of(i),
            state: EncState::start(),
            payload: None,
        })?;
        if i % 4 == 3 {
            encode_each(&mut coders, meter, &heard(i / 4));
        }
    }
    Ok(coders)
}

/// Runs each encoder once over a frame.
fn encode_each(coders: &mut [Coder], meter: &mut Meter, mix: &Frame)
    requires { meter.old + length coders.old ≤ 2 ^ 62 }
    ensures coders { length coders.new ≡ length coders.old }
    ensures meter { meter.new ≡ meter.old + length coders.old }
{
    for at in 0..coders.len() {
        encode_next(&mut coders[at], meter, mix);
    }
}

/// Runs an encoder once over a frame.
fn encode_next(coder: &mut Coder, meter: &mut Meter, mix: &Frame)
    requires { meter.old + 1 ≤ 2 ^ 62 }
    ensures { meter.new ≡ meter.old + 1 }
{
    let encoded = encode(meter.issue(), coder.rate, coder.state, *mix);
    coder.state = encoded.after();
    coder.payload = Some(encoded.payload());
}
