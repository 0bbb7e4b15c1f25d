//! The chosen of a tick.

ghost use Rattle.std.specs.Prelude.{◌≡◌, ◌<◌, ◌≤◌, [], ◌∷◌, length, slice_get, Some};
ghost use Rattle.talk_mix.specs.Voices.{MembersRise, EachNew};
ghost use Rattle.talk_mix.specs.Choice.{sorted_by, is_lower};

use g726_bits::Frame;
use std::marker::Model;

/// The voices that are heard in a tick: at most three pairs of a member and its frame, by rising member.
///
/// Contracts see a tick as the list of these pairs.
#[derive(Clone, Copy, PartialEq, Eq, Hash, Debug)]
pub struct Tick {
    talkers: Talkers,
}

#[derive(Clone, Copy, PartialEq, Eq, Hash, Debug)]
pub(crate) enum Talkers {
    Nobody,
    One((u32, Frame)),
    Two(((u32, Frame), (u32, Frame))),
    Three(((u32, Frame), (u32, Frame), (u32, Frame))),
}

impl Model for Tick {
    ghost use Rattle.std.specs.Prelude.{List};
    ghost use Rattle.talk_mix.specs.Voices.{Voice, MembersRise};
    ghost use Rattle.talk_mix.specs.Inside.{voices_of, talkers_of};

    ghost Value = { List Voice };

    ghost view = { λ t. voices_of t.talkers };

    ghost invariant = { λ t. MembersRise (voices_of t.talkers) };

    ghost inverse = { λ vs. record { talkers = talkers_of vs } };
}

impl Tick {
    ghost use Rattle.talk_mix.specs.Inside.{voices_of};

    /// A tick in which nobody is heard.
    pub fn empty() -> Tick
        ensures nobody { result ≡ [] }
    {
        Tick {
            talkers: Talkers::Nobody,
        }
    }

    /// How many are heard, at most three.
    pub fn len(&self) -> usize
        ensures value { result ≡ length self.now }
        ensures few { result ≤ 3 }
        ensures rising { MembersRise self.now }
    {
        match self.talkers {
            Talkers::Nobody => 0,
            Talkers::One(..) => 1,
            Talkers::Two(..) => 2,
            Talkers::Three(..) => 3,
        }
    }

    /// The member and the frame at place `i`, counted from 0.
    pub fn talker(&self, i: usize) -> (u32, Frame)
        requires { i < length self.now }
        ensures pair { slice_get self.now i ≡ Some result }
    {
        match &self.talkers {
            Talkers::One(first) | Talkers::Two((first, _)) | Talkers::Three((first, _, _))
                if i == 0 => *first,
            Talkers::Two((_, second)) | Talkers::Three((_, second, _)) if i == 1 => *second,
            Talkers::Three((_, _, third)) => *third,
            _ => unreachable!(),
        }
    }

    /// The tick of one voice.
    pub(crate) fn of_one(a: &(u32, Frame)) -> Tick
        ensures { result ≡ a.now ∷ [] }
    {
        Tick {
            talkers: Talkers::One(*a),
        }
    }

    /// The tick of two voices, of two members.
    pub(crate) fn of_two(a: &(u32, Frame), b: &(u32, Frame)) -> Tick
        requires { EachNew (a.now ∷ b.now ∷ []) }
        ensures { result ≡ sorted_by is_lower (a.now ∷ b.now ∷ []) }
    {
        let (first, second) = if a.0 < b.0 { (a, b) } else { (b, a) };
        Tick {
            talkers: Talkers::Two((*first, *second)),
        }
    }

    /// The tick of three voices, of three members.
    pub(crate) fn of_three<'a>(
        a: &'a (u32, Frame),
        b: &'a (u32, Frame),
        c: &'a (u32, Frame),
    ) -> Tick
        requires { EachNew (a.now ∷ b.now ∷ c.now ∷ []) }
        ensures { result ≡ sorted_by is_lower (a.now ∷ b.now ∷ c.now ∷ []) }
    {
        let (low, high) = if b.0 < c.0 { (b, c) } else { (c, b) };
        let (first, second, third) = if a.0 < low.0 {
            (a, low, high)
        } else if a.0 < high.0 {
            (low, a, high)
        } else {
            (low, high, a)
        };
        Tick {
            talkers: Talkers::Three((*first, *second, *third)),
        }
    }

    /// The voices, to be matched on.
    pub(crate) fn talkers(&self) -> &Talkers
        ensures { voices_of result.now ≡ self.now }
    {
        &self.talkers
    }
}
