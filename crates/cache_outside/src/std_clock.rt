// The system's clock.
use crate::Clock;
use std::time::{self, Instant};

/// Milliseconds since it was made, by a clock of the system that never goes back. It tells nothing of the coming times.
#[derive(Drop)]
pub struct StdClock<Rt: time::Clock + Drop> {
    rt: Rt,
    made: Option<Instant>,
    last: u64,
}

impl<Rt: time::Clock + Drop> StdClock<Rt> {
    /// A clock that begins at 0 now.
    pub fn new(rt: Rt) -> StdClock<Rt> {
        let made = Instant::now(&rt).ok();
        StdClock { rt, made, last: 0 }
    }
}

/// Milliseconds from one time to now, where both clocks were read.
fn millis_since(clock: &impl time::Clock, made: Option<Instant>) -> Option<u64> {
    let elapsed = made?.elapsed(clock).ok()?;
    u64::try_from(elapsed.as_millis()).ok()
}

impl<Rt: time::Clock + Drop> Clock for StdClock<Rt> {
    ghost use Rattle.std.specs.Prelude.{None};

    ghost view = { λ _. record { times = None } };

    /// Where the system's clock cannot be read it is the last answer, or 0.
    fn now(&mut self) -> u64 {
        if let Some(millis) = millis_since(&self.rt, self.made) {
            self.last = millis;
        }
        self.last
    }
}
