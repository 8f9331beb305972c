// The reply to a `stats` line.
ghost use Rattle.std.specs.Prelude.{◌≡◌};
ghost use Rattle.script_run.specs.Allowed.{IsStats};
ghost use Rattle.script_run.specs.Blocks.{stats_of};

use crate::sums::Sums;
use cache_door::Core;
use cache_outside::{Archive, Frame};
use mount_script::Reply;

/// What the core has counted, and the sums of the run so far. The regions that are free, mapped and leaving are all.
pub(crate) fn stats_reply<A: Archive + Drop, F: Frame + Drop>(
    core: &Core<A, F>,
    sums: &Sums,
) -> Reply
    ensures reply { result ≡ stats_of core.now.policy sums.now }
    ensures regions { IsStats core.now.config.regions result }
{
    core.lesson();
    let tally = core.tally();
    Reply::Stats {
        free: core.free_len(),
        listed: tally.listed,
        leaving: core.leaving_len(),
        evictions: tally.evictions,
        promotions: tally.promotions,
        demotions: tally.demotions,
        fetched: sums.fetched,
        direct: sums.direct,
    }
}
