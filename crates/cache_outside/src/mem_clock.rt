// A clock in memory.
ghost use Rattle.std.specs.Prelude.{◌≡◌, Some};
ghost use Rattle.cache_outside.specs.MemClocks.{clock_view};

use crate::Clock;

/// A clock that gives the times of a list in order, the last one again and again, and 0 where there is none.
#[derive(Drop)]
pub struct MemClock {
    times: Vec<u64>,
    next: usize,
}

impl MemClock {
    /// A clock of these times, in milliseconds, all of which are to come; takes no memory.
    pub fn new(times: Vec<u64>) -> MemClock
        ensures clock { clock_view result ≡ record { times = Some times.items } }
    {
        MemClock { times, next: 0 }
    }
}

impl Clock for MemClock {
    ghost view = { clock_view };

    fn now(&mut self) -> u64 {
        let Some(&time) = self.times.get(self.next) else {
            return 0;
        };
        if self.next + 1 < self.times.len() {
            self.next += 1;
        }
        time
    }
}
