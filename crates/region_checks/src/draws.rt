//! Drawn numbers: a step replaces x by `x * 6364136223846793005 + 1442695040888963407` modulo 2^64, and a draw below n
//! is `x / 2^33` modulo n.

ghost use Rattle.std.specs.Prelude.{◌<◌};

/// The state of the draws, at first the seed.
#[derive(Drop)]
pub struct Draws {
    pub state: u64,
}

impl Draws {
    /// A number below `count`.
    pub fn below(&mut self, count: u32) -> u32
        requires { 0 < count }
        ensures { result < count }
    {
        self.state = self
            .state
            .wrapping_mul(6_364_136_223_846_793_005)
            .wrapping_add(1_442_695_040_888_963_407);
        (self.state / 8_589_934_592 % count as u64) as u32
    }
}
