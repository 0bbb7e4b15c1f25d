//! A line, and what it answers.

ghost use Rattle.std.specs.Prelude.{◌≡◌, ◌+◌, ◌^◌, ◌≤◌, ℕ, [], ◌∷◌, None, IfOk, length, slice_index_or, if◌then◌else◌};
ghost use Rattle.std.specs.List.{All};
ghost use Rattle.g726_bits.specs.Ranges.{IsSample};
ghost use Rattle.jitter_line.specs.Histories.{offset_from};

use crate::place::Place;
use crate::places::{AT_POSITION, PLACES, lay, take_frame};
use circular_buffer::HeapCircularBuffer;
use edge_io::Memory;
use g726_bits::{FRAME_SAMPLES, Frame};
use std::alloc::Global;
use std::marker::Model;

/// How far the first packet's first sample is from the position: 60 ms.
const DELAY: u32 = 480;

/// How many packets in succession are refused outside the window, before one restarts the line.
const REFUSALS: u8 = 24;

/// What became of a packet.
#[derive(Clone, Copy, PartialEq, Eq, Debug)]
pub enum Put {
    /// It was taken, with `new` samples at places that held none.
    Took {
        /// The number of samples that were kept.
        new: u32,
    },
    /// It ends at or before the position. Nothing was kept.
    Late,
    /// It ends more than 3,200 places past the position. Nothing was kept.
    Early,
    /// It was outside the window as 24 before it were: all that was kept is dropped, and the packet starts the line.
    Restarted,
}

/// What was put for the next 400 ms, and where the play-out stands.
///
/// Contracts see the position, the number of refusals in succession and the places from the position on, at most 3,200
/// and none past the last that was filled, and say for which histories of puts and pulls a line stands.
#[derive(Drop)]
pub struct Line {
    position: Option<u32>,
    refusals: u8,
    ring: HeapCircularBuffer<Place>,
}

impl Model for Line {
    ghost use Rattle.jitter_line.specs.Kept.{Kept, IsSound};

    ghost Value = { Kept };

    ghost view = { λ l. record { position = l.position; refusals = l.refusals; places = l.ring.items } };

    ghost invariant = { λ l. IsSound l.refusals l.ring };
}

impl Line {
    ghost use Rattle.jitter_line.specs.Histories.{History, packet, Puts, Pulls, silence, said, starts_at, cover};
    ghost use Rattle.jitter_line.specs.Standing.{Stands, answer, OnRefused};

    /// A line without a position.
    pub fn new(alloc: Global) -> Result<Line, Memory>
        ensures empty { IfOk result (λ l. Stands l []) }
    {
        Ok(Line {
            position: None,
            refusals: 0,
            ring: HeapCircularBuffer::with_capacity(alloc, PLACES)?,
        })
    }

    /// Puts a packet of 1 to 1,600 samples on the 14-bit scale, by the RTP timestamp of the first (RFC 3550, section 5.1,
    /// with a clock of 8,000 a second).
    ///
    /// The first packet sets the position 480 places before itself. Afterwards each sample is kept at its place, if that
    /// is within 3,200 places from the position on and holds none yet. A packet that ends before or past this window is
    /// refused, but the 25th in succession restarts the line.
    pub fn put(&mut self, stamp: u32, samples: &[i16]) -> Put
        requires count { (1 ≤ length samples.now) × (length samples.now ≤ 1600) }
        requires range { All IsSample samples.now }
        ensures answer { (h : History) → Stands self.old h → result ≡ answer h (packet stamp samples.now) }
        ensures stands { (h : History) → Stands self.old h → Stands self.new (Puts (packet stamp samples.now) ∷ h) }

        // A packet that is refused is counted, and changes nothing else.
        ensures refused { OnRefused result (self.new ≡ record self.old { refusals = self.old.refusals + 1 }) }
    {
        let Some(position) = self.position else {
            self.start(stamp, samples);
            return Put::Took {
                new: samples.len() as u32,
            };
        };
        let offset = offset_between(position, stamp);
        let end = offset + samples.len() as u64;
        let is_late = end <= AT_POSITION;
        let is_early = end > AT_POSITION + PLACES as u64;
        if !is_late && !is_early {
            self.refusals = 0;
            return Put::Took {
                new: lay(&mut self.ring, offset, samples),
            };
        }
        if self.refusals == REFUSALS {
            self.start(stamp, samples);
            return Put::Restarted;
        }
        self.refusals += 1;
        if is_late { Put::Late } else { Put::Early }
    }

    /// Takes the 160 samples from the position on, with 0 where none is held, and moves the position past them.
    ///
    /// A line without a position gives silence, and stays so.
    pub fn pull(&mut self) -> Frame
        ensures said { (h : History) → Stands self.old h → result ≡ said h }
        ensures stands { (h : History) → Stands self.old h → Stands self.new (Pulls ∷ h) }
    {
        let mut frame = Frame::zero();
        if self.pull_into(&mut frame) {
            frame
        } else {
            Frame::zero()
        }
    }

    /// The same, into this frame, or `false` where the line holds nothing at all: silence is said then, and what stands
    /// in `frame` means nothing.
    pub fn pull_into(&mut self, frame: &mut Frame) -> bool
        ensures said { (h : History) → Stands self.old h → (if result then frame.new else silence) ≡ said h }
        ensures stands { (h : History) → Stands self.old h → Stands self.new (Pulls ∷ h) }
    {
        let Some(position) = self.position else {
            return false;
        };
        self.position = Some(position.wrapping_add(FRAME_SAMPLES as u32));
        if self.ring.is_empty() {
            return false;
        }
        *frame = Frame::from_samples(take_frame(&mut self.ring));
        true
    }

    /// Drops what is held, and starts the line with a packet.
    fn start(&mut self, stamp: u32, samples: &[i16])
        requires count { length samples.now ≤ 1600 }
        requires range { All IsSample samples.now }
        ensures position { self.new.position ≡ (starts_at stamp).origin }
        ensures refusals { self.new.refusals ≡ 0 }
        ensures places { (i : ℕ) → slice_index_or self.new.places i None ≡ cover (2 ^ 31 + 480) samples.now i }
    {
        self.ring.clear();
        lay(&mut self.ring, AT_POSITION + u64::from(DELAY), samples);
        self.position = Some(stamp.wrapping_sub(DELAY));
        self.refusals = 0;
    }
}

/// The difference of a timestamp and the position, as an offset: with 2^31 added.
fn offset_between(position: u32, stamp: u32) -> u64
    ensures { result ≡ offset_from position stamp }
{
    u64::from(stamp.wrapping_sub(position).wrapping_add(1 << 31))
}
