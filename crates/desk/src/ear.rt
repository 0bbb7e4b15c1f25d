//! What a talker's payloads are put to, and what it says.

ghost use Rattle.std.specs.Prelude.{◌≡◌, ◌≤◌, ◌∷◌, [], false, IfOk, if◌then◌else◌, length, map};
ghost use Rattle.jitter_line.specs.Histories.{History, packet, Puts, Pulls, silence};
ghost use Rattle.jitter_line.specs.Standing.{answer, Stands as stands_line};
ghost use Rattle.session_spec.specs.Talkers.{longest, is_ragged, placed, spoken};
ghost use Rattle.desk.specs.Ears.{expanded, law_of, Hears};

use crate::samples::{Companding, MAX_PAYLOAD, expand};
use edge_io::Memory;
use g726_bits::{FRAME_SAMPLES, Frame};
use jitter_line::{Line, Put};
use roster_text::Law;
use std::alloc::Global;
use talk_726::Hearer;

/// Where a talker's payloads go: a line of samples by G.711, or a line of codes and their decoder, with the payload type of
/// these codes.
#[derive(Drop)]
pub(crate) enum Ear {
    Law(Companding, Line),
    Coded(u8, Hearer),
}

impl Ear {
    /// An ear that was given nothing.
    pub(crate) fn new(alloc: Global, law: Law) -> Result<Ear, Memory>
        ensures law { IfOk result (λ ear. law_of ear ≡ law) }
        ensures empty { IfOk result (λ ear. Hears ear []) }
    {
        match law {
            Law::Mu => Ok(Ear::Law(Companding::Mu, Line::new(alloc)?)),
            Law::A => Ok(Ear::Law(Companding::A, Line::new(alloc)?)),
            Law::G726 { rate, pt } => Ok(Ear::Coded(pt, Hearer::new(alloc, rate)?)),
        }
    }

    /// What its talker's payloads are.
    pub(crate) fn law(&self) -> Law
        ensures { result ≡ law_of self.now }
    {
        match self {
            Ear::Law(Companding::Mu, _) => Law::Mu,
            Ear::Law(Companding::A, _) => Law::A,
            Ear::Coded(pt, hearer) => Law::G726 {
                rate: hearer.rate(),
                pt: *pt,
            },
        }
    }

    /// Puts a payload, which is neither empty nor longer than 200 ms, and of whole codes.
    pub(crate) fn put(&mut self, stamp: u32, payload: &[u8]) -> Put
        requires count { (1 ≤ length payload.now) × (length payload.now ≤ longest (law_of self.old)) }
        requires whole { is_ragged (law_of self.old) (length payload.now) ≡ false }
        ensures answer { (h : History) → Hears self.old h → result ≡ answer h (packet stamp (placed (law_of self.old) payload.now)) }
        ensures stands { (h : History) → Hears self.old h → Hears self.new (Puts (packet stamp (placed (law_of self.old) payload.now)) ∷ h) }
        ensures law { law_of self.new ≡ law_of self.old }
    {
        match self {
            Ear::Law(law, line) => put_samples(*law, line, stamp, payload),
            Ear::Coded(_, hearer) => hearer.put(stamp, payload),
        }
    }

    /// Pulls a frame, or `false` where nothing but silence is said: what stands in `frame` means nothing then.
    pub(crate) fn pull(&mut self, frame: &mut Frame) -> bool
        ensures said { (h : History) → Hears self.old h → (if result then frame.new else silence) ≡ spoken (law_of self.old) h }
        ensures stands { (h : History) → Hears self.old h → Hears self.new (Pulls ∷ h) }
        ensures law { law_of self.new ≡ law_of self.old }
    {
        match self {
            Ear::Law(_, line) => line.pull_into(frame),
            Ear::Coded(_, hearer) => {
                *frame = hearer.pull();
                true
            }
        }
    }
}

/// Expands a payload, and puts it to a line. One of 20 ms, as most are, needs room for no more than these.
fn put_samples(law: Companding, line: &mut Line, stamp: u32, payload: &[u8]) -> Put
    requires { (1 ≤ length payload.now) × (length payload.now ≤ 1600) }
    ensures answer { (h : History) → stands_line line.old h → result ≡ answer h (packet stamp (map (expanded law) payload.now)) }
    ensures stands { (h : History) → stands_line line.old h → stands_line line.new (Puts (packet stamp (map (expanded law) payload.now)) ∷ h) }
{
    if payload.len() <= FRAME_SAMPLES {
        put_in(law, line, stamp, payload, &mut [0; FRAME_SAMPLES])
    } else {
        put_in(law, line, stamp, payload, &mut [0; MAX_PAYLOAD])
    }
}

/// The same, expanded into this room.
fn put_in(law: Companding, line: &mut Line, stamp: u32, payload: &[u8], room: &mut [i16]) -> Put
    requires long { 1 ≤ length payload.now }
    requires few { length payload.now ≤ 1600 }
    requires room { length payload.now ≤ length room.old }
    ensures answer { (h : History) → stands_line line.old h → result ≡ answer h (packet stamp (map (expanded law) payload.now)) }
    ensures stands { (h : History) → stands_line line.old h → stands_line line.new (Puts (packet stamp (map (expanded law) payload.now)) ∷ h) }
{
    let samples = &mut room[..payload.len()];
    expand(law, payload, samples);
    line.put(stamp, samples)
}
