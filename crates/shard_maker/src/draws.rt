// The generator of numbers.
ghost use Rattle.std.specs.Prelude.{◌≡◌, ◌<◌};
ghost use Rattle.shard_maker.specs.Draws.{step, drawn};

/// A generator: a state of 64 bits, at first the seed.
#[derive(Drop)]
pub(crate) struct Draws {
    pub(crate) state: u64,
}

impl Draws {
    /// Makes a step and draws a number below `bound`.
    #[tactic(auto, using(crate::proofs::Steps::step_is))]
    pub(crate) fn draw(&mut self, bound: u32) -> u32
        requires { 0 < bound }
        ensures state { self.new.state ≡ step self.old.state }
        ensures value { result ≡ drawn self.new.state bound }
        ensures below { result < bound }
    {
        self.state = self
            .state
            .wrapping_mul(6_364_136_223_846_793_005)
            .wrapping_add(1_442_695_040_888_963_407);
        ((self.state >> 33) % u64::from(bound)) as u32
    }
}
