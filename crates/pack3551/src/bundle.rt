//! Up to four payloads, one after the other.

ghost use Rattle.std.specs.Prelude.{◌≡◌, ◌<◌, ◌≤◌, [], ◌∷◌, ◌++◌, length};
ghost use Rattle.std.specs.List.{flat_map};

use crate::Payload;
use std::marker::Model;

/// The payloads of one packet in place: up to four, one after the other (RFC 3551, section 4.2).
///
/// Contracts see a bundle as the list of its payloads, each the list of its octets.
#[derive(Clone, Copy, PartialEq, Eq, Debug)]
pub struct Bundle {
    octets: [u8; 400],
    sizes: [u8; 4],
    count: usize,
    filled: usize,
}

impl Model for Bundle {
    ghost use Rattle.std.specs.Prelude.{ℕ, List, take, length, map};
    ghost use Rattle.pack3551.specs.Bundled.{IsBundled, pieces, joined, filled_up};
    ghost use Rattle.pack3551.specs.BundledBack.{bundle_shown};

    ghost Value = { List (List ℕ) };

    ghost view = { λ b. pieces (take b.count b.sizes) b.octets };

    ghost invariant = { λ b. IsBundled b.octets b.sizes b.count b.filled };

    ghost inverse = { λ ps. record {
      octets = filled_up 400 (joined ps);
      sizes = filled_up 4 (map length ps);
      count = length ps;
      filled = length (joined ps);
    } };

    ghost inverse_ok = { λ b h. λ i. let shown = bundle_shown b.octets b.sizes b.count b.filled h in
        record { octets = shown.octets i; sizes = shown.sizes i; count = shown.count i; filled = shown.filled i } };
}

impl Bundle {
    /// No payload.
    pub fn empty() -> Bundle
        ensures { result ≡ [] }
    {
        Bundle {
            octets: [0; 400],
            sizes: [0; 4],
            count: 0,
            filled: 0,
        }
    }

    /// How many payloads it holds: at most four.
    pub fn len(&self) -> usize
        ensures value { result ≡ length self.now }
        ensures most { result ≤ 4 }
    {
        self.count
    }

    /// Puts a payload behind the others. There are fewer than four.
    pub fn push(&mut self, payload: &Payload)
        requires { length self.old < 4 }
        ensures { self.new ≡ self.old ++ payload.now ∷ [] }
    {
        let octets = payload.as_slice();
        let end = self.filled + octets.len();
        self.octets[self.filled..end].copy_from_slice(octets);
        self.sizes[self.count] = octets.len() as u8;
        self.filled = end;
        self.count += 1;
    }

    /// The octets of all payloads, one payload after the other: at most 400.
    pub fn as_slice(&self) -> &[u8]
        ensures value { result.now ≡ flat_map (λ octets. octets) self.now }
        ensures size { length result.now ≤ 400 }
    {
        &self.octets[..self.filled]
    }
}
