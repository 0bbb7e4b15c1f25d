//! The samples of a payload.

ghost use Rattle.std.specs.Prelude.{◌≡◌, ◌<◌, length, map, slice_index_or, slice_set};
ghost use Rattle.std.specs.List.{All};
ghost use Rattle.g726_bits.specs.Ranges.{IsSample};
ghost use Rattle.desk.specs.Ears.{expanded};

use g711_law::{expand_a, expand_mu};

/// A companding law of ITU-T G.711.
#[derive(Clone, Copy)]
pub(crate) enum Companding {
    Mu,
    A,
}

/// The most octets of a payload that is taken: 200 ms.
pub(crate) const MAX_PAYLOAD: usize = 1600;

/// Expands a payload, one sample for each octet: four at a time, and then those that are left.
pub(crate) fn expand(law: Companding, payload: &[u8], samples: &mut [i16])
    requires { length samples.old ≡ length payload.now }
    ensures values { samples.new ≡ map (expanded law) payload.now }
    ensures range { All IsSample samples.new }
{
    let fours = payload.len() / 4;
    for k in 0..fours {
        let i = 4 * k;
        expand_at(law, payload, samples, i);
        expand_at(law, payload, samples, i + 1);
        expand_at(law, payload, samples, i + 2);
        expand_at(law, payload, samples, i + 3);
    }
    for i in 4 * fours..payload.len() {
        expand_at(law, payload, samples, i);
    }
}

/// Expands the octet at a place.
#[inline]
fn expand_at(law: Companding, payload: &[u8], samples: &mut [i16], i: usize)
    requires within { i < length payload.now }
    requires room { length samples.old ≡ length payload.now }
    ensures value { samples.new ≡ slice_set samples.old i (expanded law (slice_index_or payload.now i 0)) }
    ensures range { IsSample (expanded law (slice_index_or payload.now i 0)) }
{
    samples[i] = expand_octet(law, payload[i]);
}

/// Expands one octet.
fn expand_octet(law: Companding, code: u8) -> i16
    ensures value { result ≡ expanded law code }
    ensures range { IsSample result }
{
    match law {
        Companding::Mu => expand_mu(code),
        Companding::A => expand_a(code),
    }
}
