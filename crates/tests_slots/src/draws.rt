//! Numbers that look drawn.
ghost use Rattle.std.specs.Prelude.{◌<◌};

/// A linear congruential generator.
#[derive(Drop)]
pub struct Draws {
    /// The number from which the next one follows.
    pub state: u64,
}

impl Draws {
    /// A number below a limit.
    pub fn below(&mut self, limit: u32) -> u32
        requires { 0 < limit }
        ensures { result < limit }
    {
        self.state = self
            .state
            .wrapping_mul(6_364_136_223_846_793_005)
            .wrapping_add(1_442_695_040_888_963_407);
        ((self.state >> 33) % u64::from(limit)) as u32
    }
}
