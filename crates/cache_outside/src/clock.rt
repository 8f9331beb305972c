// What tells the time.
ghost use Rattle.std.specs.Prelude.{◌≡◌, IfSome, option_map};
ghost use Rattle.cache_outside.specs.Clocks.{ClockView, first_time, times_after};

/// A clock.
pub trait Clock {
    /// The coming times, in milliseconds, where it tells.
    ghost view: { Self → ClockView };

    /// The time, in milliseconds from a start of the clock's own. Where the coming times are told it is the first, or
    /// 0 where there is none; the first is dropped where another follows.
    fn now(&mut self) -> u64
        ensures time { IfSome (view self.old).times (λ times. result ≡ first_time times) }
        ensures clock { (view self.new).times ≡ option_map times_after (view self.old).times };
}
