//! One run of the encoder, and what it gives.

ghost use Rattle.std.specs.Prelude.{◌≡◌};
ghost use Rattle.g726_bits.specs.Encoder.{after_samples, payload_of};
ghost use Rattle.g726_bits.specs.Ranges.{IsSound};
ghost use Rattle.g726_codec.specs.Run.{Run};

use crate::steps::run;
use crate::{EncState, Permit, Triple};
use g726_bits::{Frame, Rate};
use pack3551::{Payload, pack};
use std::marker::Model;

/// A run of the encoder: what it was given, the state after it, and the frame's octets.
///
/// Contracts see what the run was given; the state after it and the payload are the profile's values of that.
#[derive(Debug, Drop)]
pub struct Encoded {
    number: u64,
    given: Triple,
    after: EncState,
    payload: Payload,
}

impl Model for Encoded {
    ghost use Rattle.std.specs.Prelude.{◌≡◌};
    ghost use Rattle.g726_bits.specs.Encoder.{after_samples, payload_of};
    ghost use Rattle.g726_codec.specs.Run.{Run};

    ghost Value = { Run };

    ghost view = { λ e. record { number = e.number; rate = e.given.rate; before = e.given.state; mix = e.given.mix } };

    ghost invariant = { λ e. (e.after ≡ after_samples e.given.rate e.given.state e.given.mix) × (e.payload ≡ payload_of e.given.rate e.given.state e.given.mix) };
}

impl Encoded {
    /// The number of the permit that was spent.
    pub fn number(&self) -> u64
        ensures { result ≡ self.now.number }
    {
        self.number
    }

    /// The rate of the run.
    pub fn rate(&self) -> Rate
        ensures { result ≡ self.now.rate }
    {
        self.given.rate
    }

    /// The state that the run began with.
    pub fn before(&self) -> EncState
        ensures value { result ≡ self.now.before }
        ensures sound { IsSound result }
    {
        self.given.state.keeps_ranges();
        self.given.state
    }

    /// The frame that was encoded.
    pub fn mix(&self) -> Frame
        ensures { result ≡ self.now.mix }
    {
        self.given.mix
    }

    /// What the run was given, as one.
    pub fn triple(&self) -> &Triple
        ensures { result.now ≡ record { rate = self.now.rate; state = self.now.before; mix = self.now.mix } }
    {
        &self.given
    }

    /// The state after the frame's last sample.
    pub fn after(&self) -> EncState
        ensures value { result ≡ after_samples self.now.rate self.now.before self.now.mix }
        ensures sound { IsSound result }
    {
        self.after.keeps_ranges();
        self.after
    }

    /// The frame's octets (RFC 3551, 4.5.4).
    pub fn payload(&self) -> Payload
        ensures { result ≡ payload_of self.now.rate self.now.before self.now.mix }
    {
        self.payload
    }
}

/// Runs the encoder once over a frame, which spends the permit (ITU-T G.726 with Annex A, RFC 3551).
pub fn encode(permit: Permit, rate: Rate, state: EncState, mix: Frame) -> Encoded
    ensures { result ≡ record { number = permit; rate = rate; before = state; mix = mix } }
{
    let mut codes = [0u8; 160];
    let after = run(rate, state, mix.samples(), &mut codes);
    Encoded {
        number: permit.number(),
        given: Triple { rate, state, mix },
        after,
        payload: pack(rate, &codes),
    }
}
