//! The parts of a divided group.

ghost use Rattle.std.specs.Prelude.{◌≡◌, ◌<◌, ◌≤◌, [], ◌∷◌, ◌++◌, length, slice_get, Some};

use g726_bits::Frame;
use std::marker::Model;

/// The parts that a group was divided into: 1 to 4 pairs of a part's key and the mix that its listeners hear.
///
/// Contracts see the list of these pairs, in the order of the parts' first listeners.
#[derive(Clone, Copy)]
pub struct Parts {
    few: Few,
}

#[derive(Clone, Copy)]
enum Few {
    One((usize, Frame)),
    Two((usize, Frame), (usize, Frame)),
    Three((usize, Frame), (usize, Frame), (usize, Frame)),
    Four((usize, Frame), (usize, Frame), (usize, Frame), (usize, Frame)),
}

impl Model for Parts {
    ghost use Rattle.std.specs.Prelude.{List};
    ghost use Rattle.enc_group.specs.Part.{Part};

    ghost Value = { List Part };

    ghost use Rattle.enc_group.specs.Few.{parts_of, few_of};

    ghost view = { λ p. parts_of p.few };

    ghost inverse = { λ ps. record { few = few_of ps } };
}

impl Parts {
    /// A group's first part.
    pub(crate) fn first(key: usize, mix: Frame) -> Parts
        ensures { result ≡ (key, mix) ∷ [] }
    {
        Parts {
            few: Few::One((key, mix)),
        }
    }

    /// The same with one more part.
    pub(crate) fn with(&self, part: &(usize, Frame)) -> Parts
        requires { length self.now < 4 }
        ensures { result ≡ self.now ++ part.now ∷ [] }
    {
        let few = match &self.few {
            Few::One(a) => Few::Two(*a, *part),
            Few::Two(a, b) => Few::Three(*a, *b, *part),
            Few::Three(a, b, c) => Few::Four(*a, *b, *c, *part),
            Few::Four(..) => unreachable!(),
        };
        Parts { few }
    }

    /// How many parts there are, at least 1 and at most 4.
    pub fn len(&self) -> usize
        ensures value { result ≡ length self.now }
        ensures some { 0 < result }
        ensures few { result ≤ 4 }
    {
        match self.few {
            Few::One(..) => 1,
            Few::Two(..) => 2,
            Few::Three(..) => 3,
            Few::Four(..) => 4,
        }
    }

    /// The key and the mix of part `i`, counted from 0.
    pub fn part(&self, i: usize) -> (usize, Frame)
        requires { i < length self.now }
        ensures { slice_get self.now i ≡ Some result }
    {
        match &self.few {
            Few::One(first) | Few::Two(first, _) | Few::Three(first, ..) | Few::Four(first, ..)
                if i == 0 => *first,
            Few::Two(_, second) | Few::Three(_, second, _) | Few::Four(_, second, ..) if i == 1 =>
                *second,
            Few::Three(_, _, third) | Few::Four(_, _, third, _) if i == 2 => *third,
            Few::Four(_, _, _, fourth) => *fourth,
            _ => unreachable!(),
        }
    }
}
