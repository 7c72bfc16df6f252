//! Choices of a test, the same each time.
ghost use Rattle.std.specs.Prelude.{◌<◌};

/// Each choice follows from the one before.
#[derive(Drop)]
pub struct Choices {
    pub state: u64,
}

impl Choices {
    pub fn below(&mut self, count: u64) -> u64
        requires { 0 < count }
        ensures { result < count }
    {
        self.state = self
            .state
            .wrapping_mul(6_364_136_223_846_793_005)
            .wrapping_add(1_442_695_040_888_963_407);
        (self.state >> 33) % count
    }
}
