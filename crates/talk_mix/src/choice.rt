//! Who is heard in a tick.

ghost use Rattle.std.specs.Prelude.{◌≡◌, take};
ghost use Rattle.talk_mix.specs.Choice.{loudness, is_ahead, chosen};
ghost use Rattle.talk_mix.specs.Voices.{MembersDiffer, EachNew};

use crate::ticks::Tick;
use g726_bits::Frame;

/// The least loudness at which a voice may be chosen, ten a sample.
const LEAST_LOUDNESS: u32 = 1600;

/// The loudness of a frame: the sum of the absolute values of its 160 samples.
pub fn loudness(frame: &Frame) -> u32
    ensures value { result ≡ loudness frame.now }
{
    let mut total = 0;
    for sample in frame.samples() {
        total += u32::from(sample.unsigned_abs());
    }
    total
}

/// The voices that are heard among those of a tick, each a member with its frame: the at most three that are ahead of
/// all others, of those whose loudness is at least 1,600.
///
/// A voice is ahead of another where it is louder, or as loud and of a lower member. No two voices are of one member.
pub fn choose(frames: &[(u32, Frame)]) -> Tick
    requires { MembersDiffer frames.now }
    ensures chosen { result ≡ chosen frames.now }
{
    let mut front = Front::Nobody;
    for voice in frames {
        let level = loudness(&voice.1);
        if level >= LEAST_LOUDNESS {
            front = front.with(Candidate { voice, level });
        }
    }
    front.tick()
}

/// A voice, with its loudness as its level.
#[derive(Clone, Copy)]
struct Candidate<'a> {
    voice: &'a (u32, Frame),
    level: u32,
    ghost measured: { level ≡ loudness voice.now.1 },
}

impl Candidate<'_> {
    /// Whether this voice is louder than the other, or as loud and of a lower member.
    fn is_ahead(&self, other: &Self) -> bool
        ensures { result ≡ is_ahead self.now.voice.now other.now.voice.now }
    {
        self.level > other.level || self.level == other.level && self.voice.0 < other.voice.0
    }
}

/// The at most three voices that are ahead of all others so far, the foremost first.
#[derive(Clone, Copy)]
enum Front<'a> {
    Nobody,
    One(Candidate<'a>),
    Two(Candidate<'a>, Candidate<'a>),
    Three(Candidate<'a>, Candidate<'a>, Candidate<'a>),
}

impl<'a> Front<'a> {
    ghost use Rattle.talk_mix.specs.Choice.{put_by, sorted_by, is_lower};
    ghost use Rattle.talk_mix.specs.Fronts.{front_of};

    /// The front once one more voice is met.
    fn with(self, new: Candidate<'a>) -> Front<'a>
        ensures { front_of result ≡ take 3 (put_by is_ahead new.entry.voice.now (front_of self.entry)) }
    {
        match self {
            Front::Nobody => Front::One(new),
            Front::One(a) if new.is_ahead(&a) => Front::Two(new, a),
            Front::One(a) => Front::Two(a, new),
            Front::Two(a, b) if new.is_ahead(&a) => Front::Three(new, a, b),
            Front::Two(a, b) if new.is_ahead(&b) => Front::Three(a, new, b),
            Front::Two(a, b) => Front::Three(a, b, new),
            Front::Three(a, b, _) if new.is_ahead(&a) => Front::Three(new, a, b),
            Front::Three(a, b, _) if new.is_ahead(&b) => Front::Three(a, new, b),
            Front::Three(a, b, c) if new.is_ahead(&c) => Front::Three(a, b, new),
            Front::Three(a, b, c) => Front::Three(a, b, c),
        }
    }

    /// The voices of the front, by rising member.
    fn tick(self) -> Tick
        requires { EachNew (front_of self) }
        ensures { result ≡ sorted_by is_lower (front_of self.entry) }
    {
        match self {
            Front::Nobody => Tick::empty(),
            Front::One(a) => Tick::of_one(a.voice),
            Front::Two(a, b) => Tick::of_two(a.voice, b.voice),
            Front::Three(a, b, c) => Tick::of_three(a.voice, b.voice, c.voice),
        }
    }
}
