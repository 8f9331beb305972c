//! A cache of regions that threads share, over a table of atomic words: the rule that holds between any two steps,
//! passes, and the calls of a pass on the cache.
#![tactic(auto)]

mod between;
mod boxed;
mod cache;
mod calls;
mod choice;
mod door;
mod enter_call;
mod entry;
mod glance;
mod holder;
mod home;
mod key;
mod list_calls;
mod mount_set;
mod mounts;
mod open;
mod pass;
mod policy_turns;
mod rule;
mod sharing;
mod turns;
mod view;

pub use between::{BetweenSteps, kept_between};
pub use boxed::Boxed;
pub use cache::{SharedCache, cache_crosses};
pub use door::TableDoor;
pub use home::{Home, home_crosses};
pub use key::Key;
pub use pass::{Pass, pass_crosses};
pub use view::View;
