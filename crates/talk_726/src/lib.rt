//! What a talker of G.726 says: its codes are placed by their RTP timestamps, and a decoder goes over what is pulled.
//!
//! It stands on `jitter_line` for the line, on `g726_codec` for the decoder, and on `pack3551` for codes in octets.
//! It promises what is said at a tick by the history of what was put and pulled: the sample of a decoder that goes from
//! one place to the next, and 0 where no code came in time.
#![tactic(auto)]

mod hearer;
mod laws;
mod places;

pub use hearer::Hearer;
pub use laws::decoder_follows_an_encoder;

#[cfg(test)]
mod tests;
