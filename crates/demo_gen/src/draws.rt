//! The generator that the speech of a demo session is drawn from.

ghost use Rattle.std.specs.Prelude.{◌≡◌, ◌/◌, ◌^◌, length};
ghost use Rattle.demo_gen.specs.Draws.{next, after_draws, draws};

/// A generator of octets: a linear congruential one, whose numbers have 32 bits and whose draws are their top octets.
#[derive(Drop)]
pub(crate) struct Generator {
    pub(crate) number: u32,
}

impl Generator {
    /// The next draw.
    fn draw(&mut self) -> u8
        ensures number { self.new.number ≡ next self.old.number }
        ensures top { result ≡ self.new.number / 2 ^ 24 }
    {
        self.number = self
            .number
            .wrapping_mul(1_664_525)
            .wrapping_add(1_013_904_223);
        (self.number >> 24) as u8
    }

    /// Fills a piece of speech with draws.
    pub(crate) fn fill(&mut self, speech: &mut [u8])
        ensures number { self.new.number ≡ after_draws self.old.number (length speech.old) }
        ensures drawn { speech.new ≡ draws self.old.number 0 (length speech.old) }
    {
        for octet in speech.iter_mut() {
            *octet = self.draw();
        }
    }
}
