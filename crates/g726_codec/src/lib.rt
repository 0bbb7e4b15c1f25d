// The G.726 encoder and decoder at four rates: their state, one run over a frame, one step of the decoder, and the
// permits that count runs.
//
// Rests on g726_quant, g726_predict, g726_scale and pack3551, each proved against one list of equations.
// Promises: what `encode` gives is the profile's run over the frame, state and octets, for each rate, state and frame;
// what `follow` gives is the profile's decoder; and a decoder keeps step with the encoder whose codes it is given.
#![tactic(auto)]

mod decoder;
mod encoded;
mod laws;
mod permits;
mod state;
mod steps;

pub use decoder::{Followed, follow, follow_frame};
pub use encoded::{Encoded, encode};
pub use laws::decoder_tracks;
pub use permits::{Meter, Permit};
pub use state::{EncState, Triple};

#[cfg(test)]
mod tests;
