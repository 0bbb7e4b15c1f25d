// Codes of G.726 in a packet's octets, in the order of RFC 3551, and the payloads of one packet.
//
// Rests on g726_bits, whose definitions it meets.
// Promises: `pack` is the codes' number in octets, `unpack` is its mirror, and each gives back what the other took. A
// `Bundle` is the list of the payloads that were put into it, and lends their octets one payload after the other.
#![tactic(auto)]

ghost use Rattle.std.specs.Prelude.{◌≡◌, ◌<◌, ◌*◌, ◌^◌, ◌-◌, ◌≤◌, ℕ, List, length, take, drop, ◌++◌, replicate};
ghost use Rattle.std.specs.List.{All};
ghost use Rattle.g726_bits.specs.Rates.{bits_of};
ghost use Rattle.g726_bits.specs.Packing.{packed, unpacked, number, digits};
ghost use Rattle.pack3551.specs.Sizes.{IsSize};

use g726_bits::Rate;
use std::marker::Model;

mod bundle;
mod packing;

pub use bundle::Bundle;
use packing::{Packer, Unpacker, add_eight, refill, split};

/// A frame's octets in place: 40, 60, 80 or 100 of them.
///
/// Contracts see a payload as the list of its octets.
#[derive(Clone, Copy, PartialEq, Eq, Debug)]
pub struct Payload {
    octets: [u8; 100],
    count: usize,
}

impl Model for Payload {
    ghost use Rattle.std.specs.Prelude.{ℕ, List};
    ghost use Rattle.pack3551.specs.Shown.{IsPadded, padded};
    ghost use Rattle.pack3551.specs.ShownBack.{padded_shown, length_shown};

    ghost Value = { List ℕ };

    ghost use Rattle.std.specs.Prelude.{take, length};

    ghost view = { λ p. take p.count p.octets };

    ghost invariant = { λ p. IsPadded p.octets p.count };

    ghost inverse = { λ xs. record { octets = padded xs; count = length xs } };

    ghost inverse_ok = { λ p h. λ i. record { octets = padded_shown p.octets p.count h i; count = length_shown p.octets p.count h i } };
}

impl Payload {
    /// The octets, the first one first.
    pub fn as_slice(&self) -> &[u8]
        ensures value { result.now ≡ self.now }
        ensures size { IsSize (length result.now) }
    {
        &self.octets[..self.count]
    }
}

/// A frame's codes as octets: the digits of one number, the first code the least significant (RFC 3551, 4.5.4).
///
/// Each code is below 2 to the power of the rate's bits. Packing what `unpack` gave returns its octets.
pub fn pack(rate: Rate, codes: &[u8; 160]) -> Payload
    requires { All (λ c. c < 2 ^ bits_of rate) codes.now }
    ensures value { result ≡ packed rate codes.now }
    ensures size { length result ≡ 20 * bits_of rate }
    ensures back { (octets : List ℕ) → length octets ≡ 20 * bits_of rate → All (λ o. o < 256) octets → codes.now ≡ unpacked rate octets → result ≡ octets }
{
    match rate {
        Rate::R16 => pack_at(Rate::R16, codes),
        Rate::R24 => pack_at(Rate::R24, codes),
        Rate::R32 => pack_at(Rate::R32, codes),
        Rate::R40 => pack_at(Rate::R40, codes),
    }
}

/// Those octets, for which the program has one loop for each rate: with the bits of a code known, so is each code's place
/// among the octets that eight codes fill.
#[inline(always)]
fn pack_at(rate: Rate, codes: &[u8; 160]) -> Payload
    requires { All (λ c. c < 2 ^ bits_of rate) codes.now }
    ensures value { result ≡ packed rate codes.now }
    ensures size { length result ≡ 20 * bits_of rate }
    ensures back { (octets : List ℕ) → length octets ≡ 20 * bits_of rate → All (λ o. o < 256) octets → codes.now ≡ unpacked rate octets → result ≡ octets }
{
    let bits = rate.bits();
    let mut octets = [0u8; 100];
    let mut packer = Packer {
        count: 0,
        value: 0,
        width: 0,
    };
    for eighth in 0..20usize {
        packer = add_eight(bits, codes, 8 * eighth, packer, &mut octets);
    }
    Payload {
        octets,
        count: packer.count,
    }
}

/// The 160 codes of a frame's octets, the mirror of `pack` (RFC 3551, 4.5.4).
///
/// There are 20 times as many octets as a code has bits. Unpacking what `pack` gave returns its codes.
pub fn unpack(rate: Rate, octets: &[u8]) -> [u8; 160]
    requires { length octets.now ≡ 20 * bits_of rate }
    ensures value { result ≡ unpacked rate octets.now }
    ensures small { All (λ c. c < 2 ^ bits_of rate) result }
    ensures back { (codes : List ℕ) → length codes ≡ 160 → All (λ c. c < 2 ^ bits_of rate) codes → octets.now ≡ packed rate codes → result ≡ codes }
{
    let mut codes = [0u8; 160];
    unpack_all(rate, octets, &mut codes);
    codes
}

/// The codes of a payload of any length, which overwrite `codes`: the digits of the octets' number, the first code the least
/// significant (RFC 3551, 4.5.4).
///
/// The octets hold just as many codes, and no bits besides.
pub fn unpack_all(rate: Rate, octets: &[u8], codes: &mut [u8])
    requires { bits_of rate * length codes.old ≡ 8 * length octets.now }
    ensures value { codes.new ≡ digits (2 ^ bits_of rate) (length codes.old) (number 256 octets.now) }
    ensures small { All (λ c. c < 2 ^ bits_of rate) codes.new }
{
    let bits = rate.bits();
    let mut unpacker = Unpacker {
        taken: 0,
        value: 0,
        width: 0,
    };
    for i in 0..codes.len() {
        let full = refill(bits, octets, unpacker);
        let (code, rest) = split(bits, full);
        codes[i] = code;
        unpacker = rest;
    }
}

#[cfg(test)]
mod tests {
    use super::*;
    use std::test::Fail;

    const BELOW_FOUR: [u8; 8] = [1, 2, 3, 0, 2, 2, 3, 1];

    const BELOW_EIGHT: [u8; 8] = [1, 2, 3, 4, 5, 6, 7, 0];

    const BELOW_16: [u8; 8] = [1, 2, 15, 0, 8, 7, 3, 12];

    const BELOW_32: [u8; 8] = [31, 0, 1, 16, 21, 10, 30, 7];

    /// The number of codes at a rate.
    fn codes_at(rate: Rate) -> u8
        ensures { result ≡ 2 ^ bits_of rate }
    {
        match rate {
            Rate::R16 => 4,
            Rate::R24 => 8,
            Rate::R32 => 16,
            Rate::R40 => 32,
        }
    }

    /// The payload of codes, or `None` where one has more than the rate's bits.
    fn payload_of(rate: Rate, codes: &[u8; 160]) -> Option<Payload> {
        let limit = codes_at(rate);
        if codes.iter().all(|c| *c < limit) {
            Some(pack(rate, codes))
        } else {
            None
        }
    }

    /// A pattern of eight codes, twenty times.
    fn repeated(pattern: &[u8; 8]) -> [u8; 160] {
        let mut codes = [0u8; 160];
        for i in 0..160usize {
            codes[i] = pattern[i % 8];
        }
        codes
    }

    /// The codes of a payload, or `None` where it hasn't the rate's size.
    fn codes_of(rate: Rate, payload: &Payload) -> Option<[u8; 160]> {
        let octets = payload.as_slice();
        if octets.len() == 20 * rate.bits() as usize {
            Some(unpack(rate, octets))
        } else {
            None
        }
    }

    #[test]
    fn orders(rt: HostRuntime) -> Result<(), Fail> {
        let rows: [(Rate, &[u8; 8], &[u8], usize); 4] = [
            (Rate::R16, &BELOW_FOUR, &[0x39, 0x7a], 40),
            (
                Rate::R24,
                &BELOW_EIGHT,
                &[0xd1, 0x58, 0x1f, 0xd1, 0x58, 0x1f],
                60,
            ),
            (Rate::R32, &BELOW_16, &[0x21, 0x0f, 0x78, 0xc3], 80),
            (Rate::R40, &BELOW_32, &[0x1f, 0x04, 0x58, 0x95, 0x3f], 100),
        ];
        for (rate, pattern, first, size) in rows {
            let codes = repeated(pattern);
            let payload = payload_of(rate, &codes).ok_or("codes")?;
            assert_eq!(rt; payload.as_slice().len(), size, "at {rate:?}");
            assert_eq!(rt;
                payload.as_slice().get(..first.len()),
                Some(first),
                "at {rate:?}"
            );
            assert_eq!(rt; codes_of(rate, &payload), Some(codes), "at {rate:?}");
            let again = payload;
            assert!(rt; again == payload);
        }
        Ok(())
    }

    #[test]
    fn bundles(rt: HostRuntime) -> Result<(), Fail> {
        let small = payload_of(Rate::R16, &repeated(&BELOW_FOUR)).ok_or("codes")?;
        let large = payload_of(Rate::R40, &repeated(&BELOW_32)).ok_or("codes")?;
        let mut bundle = Bundle::empty();
        assert_eq!(rt; bundle.len(), 0);
        assert!(rt; bundle.as_slice().is_empty());
        bundle.push(&small);
        bundle.push(&large);
        bundle.push(&large);
        bundle.push(&large);
        let octets = bundle.as_slice();
        assert_eq!(rt; bundle.len(), 4);
        assert_eq!(rt; octets.len(), 340);
        assert_eq!(rt; octets.get(..40), Some(small.as_slice()));
        assert_eq!(rt; octets.get(240..), Some(large.as_slice()));
        Ok(())
    }

    #[test]
    fn equal_octets_cut_otherwise_are_another_bundle(rt: HostRuntime) -> Result<(), Fail> {
        let short = payload_of(Rate::R16, &[0; 160]).ok_or("codes")?;
        let long = payload_of(Rate::R24, &[0; 160]).ok_or("codes")?;
        let mut one = Bundle::empty();
        one.push(&short);
        one.push(&long);
        let mut other = Bundle::empty();
        other.push(&long);
        let first = other;
        other.push(&short);
        assert_eq!(rt; one.as_slice(), other.as_slice());
        assert!(rt; one != other);
        assert!(rt; first != other);
        Ok(())
    }
}
