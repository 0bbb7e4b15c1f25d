//! The encoder's state, and what a run begins with.

ghost use Rattle.std.specs.Prelude.{◌≡◌};
ghost use Rattle.g726_bits.specs.State.{CodecState, start};
ghost use Rattle.g726_bits.specs.Ranges.{IsSound};

use g726_bits::{Frame, Rate};
use g726_predict::Predictor;
use g726_scale::Scale;
use std::marker::Model;

/// The state of a G.726 encoder: its predictor and its scale, whose numbers keep the profile's ranges.
///
/// Two states are equal where an encoder gives the same codes from both on, for every signal.
#[derive(Clone, Copy, PartialEq, Eq, Hash, Debug)]
pub struct EncState {
    pub(crate) predictor: Predictor,
    pub(crate) scale: Scale,
}

impl Model for EncState {
    ghost use Rattle.g726_bits.specs.State.{CodecState};
    ghost use Rattle.g726_bits.specs.Ranges.{IsSound};

    ghost Value = { CodecState };

    ghost view = { λ s. record { predictor = s.predictor; scale = s.scale } };

    ghost invariant = { λ s. IsSound (record { predictor = s.predictor; scale = s.scale }) };

    ghost inverse = { λ s. record { predictor = s.predictor; scale = s.scale } };
}

impl EncState {
    /// The state that a reset sets.
    #[tactic(auto, unfolding(g726_bits::specs::State::start))]
    pub fn start() -> EncState
        ensures value { result ≡ start }
        ensures sound { IsSound result }
    {
        EncState {
            predictor: Predictor::start(),
            scale: Scale::start(),
        }
    }

    /// A state that is there keeps the ranges of the profile.
    pub(crate) fn keeps_ranges(&self)
        ensures { IsSound self.now }
    {
        let _predictor = &self.predictor;
    }
}

/// What decides a run: its rate, the state that it begins with, and the mix that it encodes.
///
/// It is compared as a whole, and hashed without its mix: the triples of a tick have at most four.
#[derive(Clone, Copy, PartialEq, Eq, Debug)]
#[derive_where(Hash)]
pub struct Triple {
    pub rate: Rate,
    pub state: EncState,
    #[derive_where(skip(Hash))]
    pub mix: Frame,
}
