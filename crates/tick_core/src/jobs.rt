//! Encoder runs on their way: claimed from the Book, done outside it, and handed back.

ghost use Rattle.std.specs.Prelude.{◌≡◌};
ghost use Rattle.tick_core.specs.Held.{Held};

use g726_bits::Rate;
use g726_codec::{Encoded, Permit, Triple, encode};
use std::marker::Model;

/// A run that was claimed: its number, its tick, and the triple of rate, state and mix that it is to encode.
///
/// It is neither cloned nor copied, and one call of [`Job::run`] spends its permit. Contracts see number and task.
#[derive(Drop)]
pub struct Job {
    tick: u64,
    /// The run's place in the tick's table, where it is looked for first.
    place: usize,
    permit: Permit,
    triple: Triple,
}

impl Model for Job {
    ghost use Rattle.tick_core.specs.Held.{Held};

    ghost Value = { Held };

    ghost view = { λ j. record { number = j.permit; task = record { tick = j.tick; triple = j.triple } } };
}

impl Job {
    /// The run of this permit at this tick, of this triple, from this place in the tick's table.
    pub(crate) fn of(tick: u64, place: usize, permit: Permit, triple: &Triple) -> Job
        ensures { result ≡ record { number = permit; task = record { tick = tick; triple = triple.now } } }
    {
        Job {
            tick,
            place,
            permit,
            triple: *triple,
        }
    }

    /// The run's number; the first that the Book gave out is 1.
    pub fn number(&self) -> u64
        ensures { result ≡ self.now.number }
    {
        self.permit.number()
    }

    /// The tick that is encoded. Ticks are numbered by closes from 0.
    pub fn tick(&self) -> u64
        ensures { result ≡ self.now.task.tick }
    {
        self.tick
    }

    /// The rate that is encoded at.
    pub fn rate(&self) -> Rate
        ensures { result ≡ self.now.task.triple.rate }
    {
        self.triple.rate
    }

    /// The triple that is encoded.
    pub(crate) fn triple(&self) -> &Triple
        ensures { result.now ≡ self.now.task.triple }
    {
        &self.triple
    }

    /// The place that the run had in its tick's table.
    pub(crate) fn place(&self) -> usize {
        self.place
    }

    /// The permit, for a job that is given back.
    pub(crate) fn into_permit(self) -> Permit
        ensures { result ≡ self.number }
    {
        self.permit
    }

    /// Runs the encoder once over the job's mix (ITU-T G.726), which spends the permit. It takes no memory.
    pub fn run(self) -> Done
        ensures { result ≡ self }
    {
        let tick = self.tick;
        let place = self.place;
        let triple = self.triple;
        let encoded = encode(self.permit, triple.rate, triple.state, triple.mix);
        Done {
            tick,
            place,
            encoded,
        }
    }
}

/// A run that was done, with what it made. Contracts see its number and its task.
#[derive(Drop)]
pub struct Done {
    tick: u64,
    place: usize,
    encoded: Encoded,
}

impl Model for Done {
    ghost use Rattle.tick_core.specs.Held.{Held, held_of};

    ghost Value = { Held };

    ghost view = { λ d. held_of d.tick d.encoded };
}

impl Done {
    ghost use Rattle.tick_core.specs.Held.{held_of};

    /// The number of the run that was done.
    pub fn number(&self) -> u64
        ensures { result ≡ self.now.number }
    {
        self.encoded.number()
    }

    /// The tick that was encoded.
    pub fn tick(&self) -> u64
        ensures { result ≡ self.now.task.tick }
    {
        self.tick
    }

    /// The triple that was encoded.
    pub(crate) fn triple(&self) -> &Triple
        ensures { result.now ≡ self.now.task.triple }
    {
        self.encoded.triple()
    }

    /// The place that the run had in its tick's table.
    pub(crate) fn place(&self) -> usize {
        self.place
    }

    /// What the run has made.
    pub(crate) fn encoded(&self) -> &Encoded
        ensures { held_of self.now.task.tick result.now ≡ self.now }
    {
        &self.encoded
    }
}

/// What a claim gives.
#[derive(Drop)]
pub enum Claim {
    /// The waiting run of the least number.
    Job(Job),
    /// No run waits, and more can come.
    Idle,
    /// No run waits, and the end has come.
    Over,
}
