//! Expansion of G.711 speech, mu-law and A-law, to the uniform 14-bit scale of G.726.
//!
//! It stands on no other crate.
//! It promises that each of the 256 codes of a law is expanded to the value that ITU-T G.711 gives it, and that
//! the value is one of -8192..=8191.
#![tactic(auto)]

ghost use Rattle.std.specs.Prelude.{ℕ, ◌≡◌, ◌<◌, ◌≤ℤ◌, ◌<ℤ◌, pos, negsuc, neg_ℤ, bit_xor};
ghost use Rattle.g711_law.specs.Law.{mu_law, a_law, a_value};

mod tables;

/// Expands a PCMU octet.
///
/// The sample is on the 14-bit scale, so it is one of -8031..=8031. (ITU-T G.711, section 3, tables 2a and 2b.)
#[inline]
pub fn expand_mu(code: u8) -> i16
    ensures value { result ≡ mu_law code }
    ensures range { (negsuc 8191 ≤ℤ result) × (result ≤ℤ pos 8191) }

    // The top bit of a code turns the sign alone, and below it the samples rise with the code.
    ensures mirrored { mu_law (bit_xor code 0x80) ≡ neg_ℤ result }
    ensures rises { (lower : ℕ) → lower < code → code < 128 → mu_law lower <ℤ result }
{
    tables::at(&tables::MU_LAW, code)
}

/// Expands a PCMA octet.
///
/// The sample is on the 14-bit scale, so it is one of -8064..=8064: twice the value of the 13-bit scale of the
/// law. (ITU-T G.711, section 3, tables 1a and 1b.)
#[inline]
pub fn expand_a(code: u8) -> i16
    ensures value { result ≡ a_law code }
    ensures range { (negsuc 8191 ≤ℤ result) × (result ≤ℤ pos 8191) }

    // The top bit of a code turns the sign alone, and below it the samples fall with the bits put right.
    ensures mirrored { a_law (bit_xor code 0x80) ≡ neg_ℤ result }
    ensures falls { (lower : ℕ) → lower < bit_xor code 0x55 → bit_xor code 0x55 < 128 → result <ℤ a_value lower }
{
    tables::at(&tables::A_LAW, code)
}

#[cfg(test)]
mod tests {
    use super::*;

    /// Codes with the values that the tables of ITU-T G.711 give them, brought to the 14-bit scale.
    #[test]
    fn codes_of_the_tables(rt: HostRuntime) {
        for (code, sample) in [
            (0x80, 8031),
            (0x8f, 4191),
            (0xfe, 2),
            (0xff, 0),
            (0x7f, 0),
            (0x7e, -2),
            (0x00, -8031),
        ] {
            assert_eq!(rt; expand_mu(code), sample, "mu-law {code}");
        }
        for (code, sample) in [
            (0xaa, 8064),
            (0xa5, 4224),
            (0xd5, 2),
            (0x55, -2),
            (0x2a, -8064),
        ] {
            assert_eq!(rt; expand_a(code), sample, "A-law {code}");
        }
    }
}
