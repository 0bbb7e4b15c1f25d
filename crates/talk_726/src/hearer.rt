//! A talker of G.726: its line of codes, and the decoder that goes over it.

ghost use Rattle.std.specs.Prelude.{◌≡◌, ◌≢◌, ◌≤◌, ◌*◌, ◌%◌, ◌∷◌, [], IfOk, length};
ghost use Rattle.g726_bits.specs.Rates.{bits_of};
ghost use Rattle.jitter_line.specs.Histories.{History, packet, Puts, Pulls};
ghost use Rattle.g726_bits.specs.State.{start};
ghost use Rattle.jitter_line.specs.declared.line.Put.TheVariants.{Restarted};
ghost use Rattle.jitter_line.specs.Standing.{answer};
ghost use Rattle.talk_726.specs.Decoding.{places_of, decoded};

use crate::places::{MOST_CODES, read_places, say};
use edge_io::Memory;
use g726_bits::{FRAME_SAMPLES, Frame, Rate};
use g726_codec::EncState;
use jitter_line::{Line, Put};
use std::alloc::Global;
use std::marker::Model;

/// What a talker of G.726 sent for the next 400 ms, and where its decoder stands.
///
/// Contracts see the rate, the line and the decoder's state, and say for which histories of puts and pulls a hearer
/// stands.
#[derive(Drop)]
pub struct Hearer {
    rate: Rate,
    line: Line,
    state: EncState,
}

impl Model for Hearer {
    ghost use Rattle.talk_726.specs.Kept.{Kept, IsSound};

    ghost Value = { Kept };

    ghost view = { λ d. record { rate = d.rate; line = d.line; state = d.state } };

    ghost invariant = { λ d. IsSound d.rate d.line };
}

impl Hearer {
    ghost use Rattle.talk_726.specs.Kept.{Stands};

    /// A hearer that was given nothing, with its decoder in the start state.
    ///
    /// # Errors
    ///
    /// `Memory` where there was no memory for its line.
    pub fn new(alloc: Global, rate: Rate) -> Result<Hearer, Memory>
        ensures empty { IfOk result (λ hearer. Stands hearer []) }
        ensures rate { IfOk result (λ hearer. hearer.rate ≡ rate) }
    {
        let line = Line::new(alloc)?;
        Ok(Hearer {
            rate,
            line,
            state: EncState::start(),
        })
    }

    /// The rate of its codes.
    pub fn rate(&self) -> Rate
        ensures { result ≡ self.now.rate }
    {
        self.rate
    }

    /// Puts a payload of G.726 codes, by the RTP timestamp of the first (RFC 3550, section 5.1; RFC 3551, 4.5.4).
    ///
    /// The octets are whole codes, and at most 200 ms: 200 octets for each bit of a code. Each code takes the place of a
    /// sample on a line. Where the line starts anew, so does the decoder. Takes no memory.
    pub fn put(&mut self, stamp: u32, octets: &[u8]) -> Put
        requires count { (1 ≤ length octets.now) × (length octets.now ≤ 200 * bits_of self.old.rate) }
        requires whole { 8 * length octets.now % bits_of self.old.rate ≡ 0 }
        ensures answer { (h : History) → Stands self.old h → result ≡ answer h (packet stamp (places_of self.old.rate octets.now)) }
        ensures stands { (h : History) → Stands self.old h → Stands self.new (Puts (packet stamp (places_of self.old.rate octets.now)) ∷ h) }
        ensures rate { self.new.rate ≡ self.old.rate }
    {
        let mut room = [0; MOST_CODES];
        let count = octets.len() * 8 / self.rate.bits() as usize;
        let places = &mut room[..count];
        read_places(self.rate, octets, places);
        let put = self.line.put(stamp, places);
        self.state = state_after(put, self.state);
        put
    }

    /// Takes the next 160 places, and decodes their codes. A place without a code is silent, and the decoder stays as it
    /// is. Takes no memory.
    pub fn pull(&mut self) -> Frame
        ensures said { (h : History) → Stands self.old h → result ≡ decoded self.old.rate h }
        ensures stands { (h : History) → Stands self.old h → Stands self.new (Pulls ∷ h) }
        ensures rate { self.new.rate ≡ self.old.rate }
    {
        let places = self.line.pull();
        let mut samples = [0; FRAME_SAMPLES];
        self.state = say(self.rate, self.state, places.samples(), &mut samples);
        Frame::from_samples(samples)
    }
}

/// The decoder's state where a packet was answered so: a line that starts anew has a decoder in the start state.
fn state_after(put: Put, state: EncState) -> EncState
    ensures restarted { put ≡ Restarted → result ≡ start }
    ensures other { put ≢ Restarted → result ≡ state }
{
    match put {
        Put::Restarted => EncState::start(),
        Put::Took { .. } | Put::Late | Put::Early => state,
    }
}
