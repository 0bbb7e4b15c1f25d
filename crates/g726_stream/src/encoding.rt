//! Samples to codes, frame by frame.
ghost use Rattle.std.specs.Prelude.{◌≡◌, ◌<◌, ◌≤◌, ◌+◌, ◌*◌, ◌^◌, Some, [], length, IfOk, IfErr, OnOk, OnErr, IfSome, IsErrOf};
ghost use Rattle.edge_io.specs.Told.{Grows, GrowsByFront, Rose};
ghost use Rattle.g726_bits.specs.State.{start};
ghost use Rattle.g726_bits.specs.Encoder.{after_samples};
ghost use Rattle.g726_stream.specs.Samples.{samples_in};
ghost use Rattle.g726_stream.specs.Streams.{frames, payloads, encoded, end_of_samples};
ghost use Rattle.g726_stream.specs.Causes.{CanEnd, IsCallEnd};

use crate::asked::Way;
use crate::samples::{FRAME_OCTETS, frame_of};
use crate::status::Status;
use edge_io::{Sink, Source, read_full, write_all};
use g726_bits::Rate;
use g726_codec::{EncState, Meter, encode};
use std::alloc::Global;

/// The most frames that a stream may have.
pub const MAX_FRAMES: u64 = 1 << 55;

/// Encodes all samples of `source`, whose last frame is filled with zeros, and says how they end.
pub fn encode_all<S: Source, K: Sink>(
    alloc: Global,
    rate: Rate,
    source: &mut S,
    sink: &mut K,
) -> Result<Status, Status>
    ensures whole { IfOk result (λ end. IfSome (S.rest source.old) (λ octets.
        (end ≡ end_of_samples (length octets)) × Grows (K.held sink.old) (K.held sink.new) (encoded rate octets)
        × (S.rest source.new ≡ Some []))) }
    ensures kinds { IfOk result (CanEnd Way.Encode) }
    ensures ends { IfErr result IsCallEnd }
    ensures front { OnErr result (IfSome (S.rest source.old) (λ octets.
        GrowsByFront (K.held sink.old) (K.held sink.new) (encoded rate octets))) }
    ensures read { IsErrOf result Status.ReadFault → Rose (S.faults source.old) (S.faults source.new) }
    ensures write { IsErrOf result Status.WriteFault → Rose (K.faults sink.old) (K.faults sink.new) }
{
    let mut state = EncState::start();
    let mut meter = Meter::new();
    let mut octets = [0u8; FRAME_OCTETS];
    for number in 0..MAX_FRAMES {
        let n = read_full(source, &mut octets)?;
        state = encode_frame(alloc, rate, state, &mut meter, &octets[..n], sink)?;
        if n < FRAME_OCTETS {
            return Ok(end_of(number, n));
        }
    }
    Err(Status::Memory)
}

/// Encodes the samples of at most a frame, and gives the state after it. Without a sample nothing is written.
fn encode_frame<K: Sink>(
    alloc: Global,
    rate: Rate,
    state: EncState,
    meter: &mut Meter,
    octets: &[u8],
    sink: &mut K,
) -> Result<EncState, Status>
    requires size { length octets.now ≤ 320 }
    requires counted { meter.old < 2 ^ 62 }
    ensures written { OnOk result (Grows (K.held sink.old) (K.held sink.new)
        (payloads rate state (frames (samples_in octets.now)))) }
    ensures next { length octets.now ≡ 320 →
        IfOk result (λ next. next ≡ after_samples rate state (samples_in octets.now)) }
    ensures ends { IfErr result IsCallEnd }
    ensures front { OnErr result (GrowsByFront (K.held sink.old) (K.held sink.new)
        (payloads rate state (frames (samples_in octets.now)))) }
    ensures no_read { IsErrOf result Status.ReadFault → ⊥ }
    ensures write { IsErrOf result Status.WriteFault → Rose (K.faults sink.old) (K.faults sink.new) }
    ensures steady { OnOk result (K.faults sink.new ≡ K.faults sink.old) }
    ensures counts { meter.new ≤ meter.old + 1 }
{
    if octets.len() < 2 {
        return Ok(state);
    }
    let done = encode(meter.issue(), rate, state, frame_of(octets));
    write_all(alloc, sink, done.payload().as_slice())?;
    Ok(done.after())
}

/// How samples end of which this many frames are whole and `n` octets are left.
fn end_of(frames: u64, n: usize) -> Status
    requires frames { frames < 2 ^ 55 }
    requires left { n < 320 }
    ensures kind { CanEnd Way.Encode result }
    ensures value { result ≡ end_of_samples (320 * frames + n) }
{
    if n % 2 == 0 {
        Status::Done
    } else {
        Status::OddOctet {
            at: 320 * frames + (n as u64) - 1,
        }
    }
}
