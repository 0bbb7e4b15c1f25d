//! Packets of RTCP among the datagrams that come.
ghost use Rattle.std.specs.Prelude.{◌≡◌, ◌≤◌, ◌<◌, ◌+◌, ◌^◌, [], ◌∷◌, length};
ghost use Rattle.live_spec.specs.Heard.{is_control};
ghost use Rattle.live_link.specs.Rounds.{with_controls};

use rtcp_pack::check;

/// How many packets of RTCP came.
#[derive(Clone, Copy, Debug, PartialEq, Eq)]
pub struct Controls {
    /// Those that are sound compounds.
    pub heard: u64,
    /// The others.
    pub refused: u64,
}

impl Controls {
    /// None.
    pub fn none() -> Controls
        ensures { result ≡ record { heard = 0; refused = 0 } }
    {
        Controls {
            heard: 0,
            refused: 0,
        }
    }

    /// Counts one that came.
    pub(crate) fn count(&mut self, octets: &[u8])
        requires short { length octets.now ≤ 65535 }
        requires room { self.old.heard + self.old.refused < 2 ^ 63 }
        ensures { self.new ≡ with_controls self.old (octets.now ∷ []) }
    {
        match check(octets) {
            Ok(_) => self.heard += 1,
            Err(_) => self.refused += 1,
        }
    }
}

/// A packet of RTCP and not of RTP, by its second octet (RFC 3550, section 12.1).
pub(crate) fn is_control(octets: &[u8]) -> bool
    ensures { result ≡ is_control octets.now }
{
    match octets {
        [_, second, ..] => *second >= 200 && *second <= 204,
        _ => false,
    }
}
