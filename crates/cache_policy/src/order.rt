// The order of candidates: by rising frequency, and in each list from its front.
ghost use Rattle.std.specs.Prelude.{◌≡◌, ◌<◌, ◌≤◌, drop, length};
ghost use Rattle.freq_lists.specs.Lists.{head, times};
ghost use Rattle.cache_policy.specs.Ageing.{candidates_in, next_after};

use freq_lists::FreqLists;

// The first region in the lists from this one on.
pub fn first_from(lists: &FreqLists, from: u32, max_freq: u32) -> Option<u32>
    requires { length lists.now.lists ≡ max_freq }
    ensures { result ≡ head (candidates_in (drop from lists.now.lists)) }
{
    for frequency in from..max_freq {
        if let Some(region) = lists.front(frequency) {
            return Some(region);
        }
    }
    None
}

// The region behind this one.
pub fn behind(lists: &FreqLists, region: u32, max_freq: u32) -> Option<u32>
    requires count { length lists.now.lists ≡ max_freq }
    requires listed { 0 < times region lists.now.lists }
    ensures { result ≡ next_after region (candidates_in lists.now.lists) }
{
    lists.lesson();
    if let Some(next) = lists.next(region) {
        return Some(next);
    }
    let Some(frequency) = lists.list_of(region) else {
        return None;
    };
    first_from(lists, frequency + 1, max_freq)
}
