//! Codes to samples, frame by frame.
ghost use Rattle.std.specs.Prelude.{◌≡◌, ◌<◌, ◌≤◌, ◌*◌, ◌+◌, ◌^◌, Some, [], length, IfOk, IfErr, OnOk, OnErr, IfSome, IsErrOf};
ghost use Rattle.std.specs.List.{All, flat_map};
ghost use Rattle.edge_io.specs.Told.{Grows, GrowsByFront, Rose};
ghost use Rattle.g726_bits.specs.Rates.{bits_of};
ghost use Rattle.g726_bits.specs.Ranges.{IsSample};
ghost use Rattle.g726_bits.specs.Packing.{unpacked};
ghost use Rattle.g726_codec.specs.Decoder.{after_codes, samples_of};
ghost use Rattle.g726_stream.specs.Samples.{octets_of};
ghost use Rattle.g726_stream.specs.Streams.{decoded, end_of_codes};
ghost use Rattle.g726_stream.specs.Causes.{CanEnd, IsCallEnd};

use crate::asked::Way;
use crate::encoding::MAX_FRAMES;
use crate::samples::{FRAME_OCTETS, high_half, low_half, whole_of};
use crate::status::Status;
use edge_io::{Sink, Source, read_full, write_all};
use g726_bits::{FRAME_SAMPLES, Rate};
use g726_codec::{EncState, follow_frame};
use pack3551::unpack;
use std::alloc::Global;

/// Decodes all whole frames of `source`, and says how its codes end.
pub fn decode_all<S: Source, K: Sink>(
    alloc: Global,
    rate: Rate,
    source: &mut S,
    sink: &mut K,
) -> Result<Status, Status>
    ensures whole { IfOk result (λ end. IfSome (S.rest source.old) (λ octets.
        (end ≡ end_of_codes rate (length octets)) × Grows (K.held sink.old) (K.held sink.new) (decoded rate octets)
        × (S.rest source.new ≡ Some []))) }
    ensures kinds { IfOk result (CanEnd Way.Decode) }
    ensures ends { IfErr result IsCallEnd }
    ensures front { OnErr result (IfSome (S.rest source.old) (λ octets.
        GrowsByFront (K.held sink.old) (K.held sink.new) (decoded rate octets))) }
    ensures read { IsErrOf result Status.ReadFault → Rose (S.faults source.old) (S.faults source.new) }
    ensures write { IsErrOf result Status.WriteFault → Rose (K.faults sink.old) (K.faults sink.new) }
{
    let size = 20 * rate.bits() as usize;
    let mut state = EncState::start();
    let mut octets = [0u8; 100];
    for number in 0..MAX_FRAMES {
        let frame = &mut octets[..size];
        let n = read_full(source, frame)?;
        if n < size {
            return Ok(end_of(rate, number, n));
        }
        state = decode_frame(alloc, rate, state, frame, sink)?;
    }
    Err(Status::Memory)
}

/// Decodes a frame, and gives the state after it.
fn decode_frame<K: Sink>(
    alloc: Global,
    rate: Rate,
    state: EncState,
    octets: &[u8],
    sink: &mut K,
) -> Result<EncState, Status>
    requires size { length octets.now ≡ 20 * bits_of rate }
    ensures written { OnOk result (Grows (K.held sink.old) (K.held sink.new)
        (flat_map octets_of (samples_of rate state (unpacked rate octets.now)))) }
    ensures next { IfOk result (λ next. next ≡ after_codes rate state (unpacked rate octets.now)) }
    ensures ends { IfErr result IsCallEnd }
    ensures front { OnErr result (GrowsByFront (K.held sink.old) (K.held sink.new)
        (flat_map octets_of (samples_of rate state (unpacked rate octets.now)))) }
    ensures no_read { IsErrOf result Status.ReadFault → ⊥ }
    ensures write { IsErrOf result Status.WriteFault → Rose (K.faults sink.old) (K.faults sink.new) }
    ensures steady { OnOk result (K.faults sink.new ≡ K.faults sink.old) }
{
    let codes = unpack(rate, octets);
    let mut samples = [0u8; FRAME_OCTETS];
    let next = follow_all(rate, state, &codes, &mut samples);
    write_all(alloc, sink, &samples)?;
    Ok(next)
}

/// Follows a frame's codes, puts the octets of their samples down, and gives the state after them.
fn follow_all(rate: Rate, before: EncState, codes: &[u8; 160], octets: &mut [u8; 320]) -> EncState
    requires { All (λ c. c < 2 ^ bits_of rate) codes.now }
    ensures state { result ≡ after_codes rate before codes.now }
    ensures octets { octets.new ≡ flat_map octets_of (samples_of rate before codes.now) }
{
    let mut samples = [0i16; FRAME_SAMPLES];
    let after = follow_frame(rate, before, codes, &mut samples);
    put_down(&samples, octets);
    after
}

/// Puts the octets of a frame's samples down.
fn put_down(samples: &[i16; 160], octets: &mut [u8; 320])
    requires { All IsSample samples.now }
    ensures { octets.new ≡ flat_map octets_of samples.now }
{
    for i in 0..FRAME_SAMPLES {
        let whole = whole_of(samples[i]);
        octets[2 * i] = low_half(whole);
        octets[2 * i + 1] = high_half(whole);
    }
}

/// How codes end of which this many frames are whole and `n` octets are left.
fn end_of(rate: Rate, frames: u64, n: usize) -> Status
    requires frames { frames < 2 ^ 55 }
    requires left { n < 20 * bits_of rate }
    ensures kind { CanEnd Way.Decode result }
    ensures value { result ≡ end_of_codes rate (20 * bits_of rate * frames + n) }
{
    if n == 0 {
        Status::Done
    } else {
        Status::TornFrame {
            at: 20 * u64::from(rate.bits()) * frames,
        }
    }
}
