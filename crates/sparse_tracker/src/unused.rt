//! The least number that no item of a list has. It is found by counting, so that it takes no memory and few walks.

ghost use Rattle.std.specs.Prelude.{◌≡◌, ◌<◌, ℕ, length, map};
ghost use Rattle.sparse_tracker.specs.ByteStates.{least_unused};
ghost use Rattle.sparse_tracker.specs.Kept.{AllDiffer, count_below};

/// An item of a list in which no two have the same number.
pub trait Numbered {
    ghost number: { Self → ℕ };

    /// Its number.
    fn number(&self) -> u32
        ensures { result ≡ number self.now };
}

/// The least number that no item has: one walk where the items have the numbers from 0 on, and else the limit up to
/// which all numbers are in use is found by halving.
pub fn unused_number<T: Numbered>(items: &[T]) -> u32
    requires count { length items.now < 4294967295 }
    requires differ { AllDiffer (map T.number items.now) }
    ensures { result ≡ least_unused (map T.number items.now) }
{
    let count = items.len() as u32;
    if count_below(items, count) == count {
        return count;
    }
    // all numbers below `low` are in use, and one up to `high` is not
    let mut low = 0;
    let mut high = count;
    while low < high {
        let middle = low + (high - low) / 2;
        if count_below(items, middle + 1) > middle {
            low = middle + 1;
        } else {
            high = middle;
        }
    }
    low
}

// how many items have a number below the limit
fn count_below<T: Numbered>(items: &[T], limit: u32) -> u32
    requires { length items.now < 4294967295 }
    ensures { result ≡ count_below limit (map T.number items.now) }
{
    let mut count = 0;
    for item in items {
        if item.number() < limit {
            count += 1;
        }
    }
    count
}
