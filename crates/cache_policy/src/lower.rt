// A decay of the lists.
ghost use Rattle.std.specs.Prelude.{◌≡◌, ◌<◌, ◌≤◌, ◌+◌, ◌-◌, ◌*◌, ℕ, suc, length, take, filter};
ghost use Rattle.freq_lists.specs.Lists.{list_at};
ghost use Rattle.cache_policy.specs.Ageing.{lower, count_lowered};
ghost use Rattle.cache_policy.specs.Policy.{rise};
ghost use Rattle.cache_policy.specs.Steps.{goes_down, lowering, count_from};

use freq_lists::FreqLists;

// Whether twice the least interval passed since the region's last access; the product is taken without bound.
fn goes_down(last_accesses: &[u64], min_delta: u64, now: u64, region: u32) -> bool
    requires { region < length last_accesses.now }
    ensures { result ≡ goes_down last_accesses.now min_delta now region }
{
    now.saturating_sub(last_accesses[region as usize]) / 2 >= min_delta
}

// Lowers the entries of the list above `below` that have waited long enough, and gives their number.
#[tactic(auto, using(crate::proofs::Lowers::begun, crate::proofs::Lowers::there, crate::proofs::Lowers::some_at, crate::proofs::Lowers::none_at))]
fn lower_list(
    lists: &mut FreqLists,
    below: u32,
    last_accesses: &[u64],
    min_delta: u64,
    now: u64,
) -> u32
    requires list { below + 1 < length lists.old.lists }
    requires last_accesses { (lists.old.nodes ≤ length last_accesses.now) × (lists.old.nodes < 4294967296)
        × (length lists.old.lists < 4294967296) }
    ensures lists { lists.new ≡ record lists.old {
      lists = lowering (goes_down last_accesses.now min_delta now) below
          (length (list_at (suc below) lists.old.lists)) lists.old.lists;
    } }
    ensures count { result
        ≡ length (filter (goes_down last_accesses.now min_delta now) (list_at (suc below) lists.old.lists)) }
{
    lists.lesson();
    let mut at = lists.front(below + 1);
    let mut seen: u32 = 0;
    let mut lowered: u32 = 0;
    while let Some(region) = at {
        lists.lesson();
        at = lists.next(region);
        if goes_down(last_accesses, min_delta, now, region) {
            lists.unlink(region);
            lists.push_back(below, region);
            lowered += 1;
        }
        seen += 1;
    }
    lowered
}

// Lowers all lists, and gives the counter raised by the number of lowered entries.
pub fn lower_all(
    lists: &mut FreqLists,
    max_freq: u32,
    last_accesses: &[u64],
    min_delta: u64,
    now: u64,
    demotions: u64,
) -> u64
    requires count { (length lists.old.lists ≡ max_freq) × (0 < max_freq) }
    requires last_accesses { (lists.old.nodes ≤ length last_accesses.now) × (lists.old.nodes < 4294967296) }
    ensures lists { lists.new
        ≡ record lists.old { lists = lower (goes_down last_accesses.now min_delta now) lists.old.lists } }
    ensures counter { result
        ≡ rise demotions (count_from (goes_down last_accesses.now min_delta now) 0 lists.old.lists) }
{
    let mut counter = demotions;
    for below in 0..max_freq - 1 {
        let lowered = lower_list(lists, below, last_accesses, min_delta, now);
        counter = counter.saturating_add(lowered as u64);
    }
    counter
}
