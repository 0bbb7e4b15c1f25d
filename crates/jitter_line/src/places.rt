//! The places of a line: a ring whose item `i` is the place `i` past the position. Past its last item no place holds
//! anything.

ghost use Rattle.std.specs.Prelude.{◌≡◌, ◌+◌, ◌^◌, ◌<◌, ◌≤◌, ℕ, ℤ, pos, max, map, List, [], ◌∷◌, ◌++◌, Option, None, Some, length, slice_index_or, slice_set, unwrap_or, is_none};
ghost use Rattle.std.specs.List.{All};
ghost use Rattle.g726_bits.specs.Ranges.{IsSample};
ghost use Rattle.circular_buffer.specs.Buffer.{buffer};
ghost use Rattle.jitter_line.specs.Histories.{cover, or_else, new_of};
ghost use Rattle.jitter_line.specs.Rings.{Holds};

use crate::place::Place;
use circular_buffer::HeapCircularBuffer;
use g726_bits::FRAME_SAMPLES;

/// How many places a line has: 400 ms.
pub(crate) const PLACES: usize = 3200;

/// The offset of a sample that falls at the position.
pub(crate) const AT_POSITION: u64 = 1 << 31;

/// Keeps a packet's samples at the places from an offset on that hold none, and counts them. Samples before the position
/// are passed over.
pub(crate) fn lay(ring: &mut HeapCircularBuffer<Place>, offset: u64, samples: &[i16]) -> u32
    requires places { (length ring.old.items ≤ 3200) × (ring.old.capacity ≡ 3200) }
    requires within { (2 ^ 31 ≤ offset + length samples.now) × (offset + length samples.now ≤ 2 ^ 31 + 3200) }
    requires range { All IsSample samples.now }
    ensures places { Holds ring.new (λ i. or_else (slice_index_or ring.old.items i None) (cover offset samples.now i)) }
    ensures new { result ≡ new_of (λ i. slice_index_or ring.old.items i None) offset (length samples.now) }
{
    let early = AT_POSITION.saturating_sub(offset) as usize;
    let place = offset.saturating_sub(AT_POSITION) as usize;
    lay_at(ring, place, &samples[early..])
}

/// Keeps samples at the places from this one on that hold none, and counts them.
fn lay_at(ring: &mut HeapCircularBuffer<Place>, place: usize, samples: &[i16]) -> u32
    requires places { (length ring.old.items ≤ 3200) × (ring.old.capacity ≡ 3200) }
    requires within { place + length samples.now ≤ 3200 }
    requires range { All IsSample samples.now }
    ensures places { Holds ring.new (λ i. or_else (slice_index_or ring.old.items i None) (cover (place + 2 ^ 31) samples.now i)) }
    ensures new { result ≡ new_of (λ i. slice_index_or ring.old.items i None) (place + 2 ^ 31) (length samples.now) }
{
    reach(ring, place);
    let shared = samples.len().min(ring.len() - place);
    let new = lay_over(ring, place, &samples[..shared]);
    append(ring, &samples[shared..]);
    new + (samples.len() - shared) as u32
}

/// Appends empty places until there are so many.
fn reach(ring: &mut HeapCircularBuffer<Place>, count: usize)
    requires { (length ring.old.items ≤ 3200) × (ring.old.capacity ≡ 3200) × (count ≤ 3200) }
    ensures long { (length ring.new.items ≡ max count (length ring.old.items)) × (ring.new.capacity ≡ 3200) }
    ensures same { (i : ℕ) → slice_index_or ring.new.items i None ≡ slice_index_or ring.old.items i None }
{
    for _ in ring.len()..count {
        ring.push_back(Place::empty());
    }
}

/// Keeps samples at the places from this one on that hold none, where the ring has all these places, and counts them.
fn lay_over(ring: &mut HeapCircularBuffer<Place>, place: usize, samples: &[i16]) -> u32
    requires places { (length ring.old.items ≤ 3200) × (ring.old.capacity ≡ 3200) }
    requires within { place + length samples.now ≤ length ring.old.items }
    requires range { All IsSample samples.now }
    ensures long { (length ring.new.items ≡ length ring.old.items) × (ring.new.capacity ≡ 3200) }
    ensures places { (i : ℕ) → slice_index_or ring.new.items i None ≡ or_else (slice_index_or ring.old.items i None) (cover (place + 2 ^ 31) samples.now i) }
    ensures new { result ≡ new_of (λ i. slice_index_or ring.old.items i None) (place + 2 ^ 31) (length samples.now) }
{
    let mut new = 0;
    for (j, sample) in samples.iter().enumerate() {
        let is_new = keep(ring, place + j, *sample);
        new += u32::from(is_new);
    }
    new
}

/// Keeps a sample at a place, if that holds none.
fn keep(ring: &mut HeapCircularBuffer<Place>, place: usize, sample: i16) -> bool
    requires place { place < length ring.old.items }
    requires sample { IsSample sample }
    ensures new { result ≡ is_none (slice_index_or ring.old.items place None) }
    ensures places { ring.new ≡ buffer (slice_set ring.old.items place (or_else (slice_index_or ring.old.items place None) (Some sample))) ring.old.capacity }
{
    let Some(held) = ring.get_mut(place) else {
        unreachable!()
    };
    if !held.is_empty() {
        return false;
    }
    *held = Place::of(sample);
    true
}

/// Appends samples, a frame at a time.
fn append(ring: &mut HeapCircularBuffer<Place>, samples: &[i16])
    requires room { (length ring.old.items + length samples.now ≤ 3200) × (ring.old.capacity ≡ 3200) }
    requires range { All IsSample samples.now }
    ensures { ring.new ≡ buffer (ring.old.items ++ map Some samples.now) 3200 }
{
    for k in 0..samples.len().div_ceil(FRAME_SAMPLES) {
        let from = FRAME_SAMPLES * k;
        let end = samples.len().min(from + FRAME_SAMPLES);
        append_frame(ring, &samples[from..end]);
    }
}

/// Appends at most 160 samples.
fn append_frame(ring: &mut HeapCircularBuffer<Place>, samples: &[i16])
    requires room { (length ring.old.items + length samples.now ≤ 3200) × (ring.old.capacity ≡ 3200) × (length samples.now ≤ 160) }
    requires range { All IsSample samples.now }
    ensures { ring.new ≡ buffer (ring.old.items ++ map Some samples.now) 3200 }
{
    let mut places = [Place::empty(); FRAME_SAMPLES];
    for (j, sample) in samples.iter().enumerate() {
        places[j] = Place::of(*sample);
    }
    ring.fill_from_slice(&places[..samples.len()]);
}

/// Takes what the first 160 places say, 0 where they hold nothing.
pub(crate) fn take_frame(ring: &mut HeapCircularBuffer<Place>) -> [i16; FRAME_SAMPLES]
    requires { (length ring.old.items ≤ 3200) × (ring.old.capacity ≡ 3200) }
    ensures long { length result ≡ 160 }
    ensures samples { (k : ℕ) → k < 160 →
        slice_index_or result k (pos 0) ≡ unwrap_or (slice_index_or ring.old.items k None) (pos 0) }
    ensures rest { Holds ring.new (λ i. slice_index_or ring.old.items (160 + i) None) }
{
    let mut places = [Place::empty(); FRAME_SAMPLES];
    ring.read_into(&mut places);
    let mut samples = [0; FRAME_SAMPLES];
    for k in 0..FRAME_SAMPLES {
        samples[k] = places[k].said();
    }
    samples
}
