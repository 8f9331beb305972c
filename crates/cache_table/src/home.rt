//! What the slots of the table hold.
use crate::boxed::Boxed;
use cache_outside::{Archive, Frame};
use cache_policy::Policy;
use region_cell::RegionCell;

/// What a slot holds: slot 0 the policy, slot r + 1 the cell of region r. Each has memory of its own, so that a turn
/// moves pointers alone.
#[derive(Drop)]
pub enum Home<A: Archive, F: Frame> {
    Policy(Boxed<Policy>),
    Cell(Boxed<RegionCell<A, F>>),
    /// It is out with the pass that has the turn.
    Away,
}

// A missing proof of `Send` shows here, and not first at the threads above.
fn crosses<T: Send>() {}

/// What a slot holds may be handed from thread to thread where a frame may.
pub fn home_crosses<A: Archive + Send, F: Frame + Send>() {
    crosses::<Home<A, F>>();
}
