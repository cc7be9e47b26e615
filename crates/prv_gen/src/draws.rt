//! The generator of numbers that the pairs for trials are drawn from. It is of the plainest kind, so that
//! anybody can compute the same texts.
ghost use Rattle.std.specs.Prelude.{◌≡◌, ◌<◌};
ghost use Rattle.prv_gen.specs.Generated.{next_state, drawn as drawn_of};

/// A generator of numbers below 100: a linear congruential one, modulo 2^32.
#[derive(Debug, Drop)]
pub struct Draws {
    /// The state behind the last draw; at first the number that the pair is made from.
    pub state: u32,
}

impl Draws {
    /// The next number, 0 to 99.
    pub fn draw(&mut self) -> u32
        ensures state { self.new.state ≡ next_state self.old.state }
        ensures value { result ≡ drawn_of self.new.state }
    {
        self.state = self
            .state
            .wrapping_mul(1_664_525)
            .wrapping_add(1_013_904_223);
        (self.state >> 16) % 100
    }
}
