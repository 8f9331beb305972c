//! The cell of one region: its key, which of its bytes are present, and the bytes in its frame.

ghost use Rattle.std.specs.Prelude.{◌≡◌, ◌<◌, ◌≤◌, ◌-◌, ℕ, max, IsTrue, OnOk, OnErr, IfOk, IfSome, IfNone};
ghost use Rattle.std.specs.Prelude.{IsOk, IsSome, is_some, length, []};
ghost use Rattle.region_ranges.specs.Keys.{IsConfig, IsKey, tag_of, key_of, free_tag};
ghost use Rattle.blob_parts.specs.Content.{content};
ghost use Rattle.region_cell.specs.Cells.{new_cell, len_of, assign, claimed, new_claim, fail, leave, are_present};
ghost use Rattle.region_cell.specs.Cells.{with_region, ticket_in, gap_in, LiesInRange, IsLength, FitsCell, FrameOnly};
ghost use Rattle.region_cell.specs.Cells.{StoreOnly, Faulted, CopyAnswer, CellBytes, TicketBytes, TicketContent};
ghost use Rattle.region_cell.specs.Cells.{RangeContent, Stored, Unstored, NeverOpen, IsGood};

use crate::Taken;
use blob_parts::Piece;
use cache_outside::{Archive, Frame, FrameFault};
use region_ranges::{ByteRange, Config, RegionKey, aligned};
use sparse_tracker::{Claim, Status, Tracker, claim_places};
use std::alloc::{AllocError, Global};
use std::marker::{Model, PhantomData};

/// The bytes of one region of a file, as far as they are present, or of none. Clauses see a note of all but the bytes
/// (the key's tag, the states with gaps and tickets, what the frame tells, the range in which the cell is filled),
/// the bytes, and for how many claims there is room.
#[derive(Drop)]
pub struct RegionCell<A: Archive, F: Frame> {
    key: Option<RegionKey>,
    tracker: Tracker,
    frame: F,
    size: u32,
    range: u32,
    archive: PhantomData<A>,
}

impl<A: Archive, F: Frame> Model for RegionCell<A, F> {
    ghost use Rattle.std.specs.Prelude.{◌≡◌, IfSome};
    ghost use Rattle.region_ranges.specs.Keys.{IsKey};
    ghost use Rattle.blob_parts.specs.Content.{content};
    ghost use Rattle.region_cell.specs.Cells.{CellView, seen, IsKept};

    ghost Value = { CellView };

    ghost view = { λ c. seen c.key c.tracker (F.view c.frame) c.range };

    ghost invariant = { λ c.
        IfSome c.key IsKey
        × ((F.view c.frame).size ≡ c.size)
        × (c.tracker.first_len ≡ c.size)
        × IsKept A.tells (content A.blobs) (seen c.key c.tracker (F.view c.frame) c.range) };
}

impl<A: Archive, F: Frame> RegionCell<A, F> {
    /// A cell without a key, as long as a region, with all bytes absent. It takes no memory.
    pub fn new(alloc: Global, frame: F, config: &Config) -> RegionCell<A, F>
        requires config { IsConfig config.now }
        requires size { (F.view frame).size ≡ config.now.region }
        ensures { result ≡ new_cell (F.view frame) config.now.range }
    {
        RegionCell {
            key: None,
            tracker: Tracker::new(alloc, config.region),
            frame,
            size: config.region,
            range: config.range,
            archive: PhantomData,
        }
    }

    /// The key of the region whose bytes it holds.
    pub fn key(&self) -> Option<RegionKey>
        ensures value { result ≡ key_of self.now.metadata.region.tag }
        ensures some { IfSome result (λ key. IsKey key × (tag_of key ≡ self.now.metadata.region.tag)) }
        ensures none { IfNone result (self.now.metadata.region.tag ≡ free_tag) }
    {
        self.key
    }

    /// The number of its bytes, whether present or not.
    pub fn len(&self) -> u32
        ensures { result ≡ len_of self.now.metadata.region }
    {
        self.tracker.len()
    }

    /// What is true of every cell.
    pub fn lesson(&self)
        ensures good { IsGood A.tells (content A.blobs) self.now }
        ensures settled { NeverOpen self.now.metadata.region.tracker }
    {
        self.tracker.lesson();
    }

    /// Makes it the cell of the key's region, with `len` bytes, all absent. The room for claims stays.
    pub fn assign(&mut self, key: RegionKey, len: u32)
        requires key { IsKey key }
        requires gaps { self.old.metadata.region.tracker.gaps ≡ [] }
        requires tickets { self.old.metadata.region.tracker.tickets ≡ [] }
        requires len { (0 < len) × (len ≤ self.old.metadata.frame.size) }
        requires whole { IsLength A.tells (content A.blobs) self.old.metadata.frame.size (tag_of key) len }
        ensures { self.new ≡ with_region (assign (tag_of key) len self.old.metadata.region) self.old }
    {
        self.key = Some(key);
        self.tracker.renew(len);
    }

    /// Room for one more claim, so that the next one answers Ok.
    pub fn reserve(&mut self) -> Result<(), AllocError>
        ensures ok { OnOk result (self.new ≡ record self.old { spare = max self.old.spare 1 }) }
        ensures err { OnErr result (self.new ≡ self.old) }
        ensures room { 0 < self.old.spare → IsOk result }
    {
        self.tracker.reserve()
    }

    /// A ticket on `sub`, and where a byte of it is absent a gap: the greatest run of absent bytes in the aligned
    /// range of `sub` round the first one, which the caller has to fetch and store, or to fail. It takes its memory
    /// from the room, where there is any, and else may be refused for want of memory, with all as before.
    pub fn claim(&mut self, sub: ByteRange) -> Result<Claim, AllocError>
        requires { LiesInRange sub self.old.metadata }
        ensures ok { OnOk result (self.new ≡ claimed sub self.old) }
        ensures claim { IfOk result (λ c. c ≡ new_claim self.old.metadata.range sub self.old.metadata.region) }
        ensures err { OnErr result (self.new ≡ self.old) }
        ensures room { 0 < self.old.spare → IsOk result }
    {
        claim_places();
        let len = self.tracker.len();
        let range = aligned(sub.start as u32, self.range, len);
        self.tracker.wait_for_range(range, sub)
    }

    /// Copies the bytes that the ticket waits for into `out`, where all are present.
    ///
    /// `Waiting` and `Failed` come exactly by the ticket's status, and `FrameFault` only where the frame's count of
    /// failures rose in this call. After another answer than `Copied` `out` may hold anything.
    pub fn copy(&mut self, ticket: u32, out: &mut [u8]) -> Taken
        requires ticket { IsSome (ticket_in ticket self.old) }
        requires len { IfSome (ticket_in ticket self.old) (λ k. length out.old ≡ k.end - k.start) }
        ensures same { FrameOnly self.old self.new }
        ensures answer { IfSome (ticket_in ticket self.old) (CopyAnswer self.old result) }
        ensures fault { result ≡ Taken.FrameFault → Faulted self.old.metadata.frame self.new.metadata.frame }
        ensures bytes { result ≡ Taken.Copied → TicketBytes self.old ticket out.new }
        ensures content { result ≡ Taken.Copied → TicketContent A.tells (content A.blobs) self.old ticket out.new }
    {
        match self.tracker.status(ticket) {
            Status::Waiting => Taken::Waiting,
            Status::Failed => Taken::Failed,
            Status::Open => unreachable!(),
            Status::Ready => {
                let sub = self.tracker.waits_for(ticket);
                match self.frame.get(sub.start as u32, out) {
                    Ok(()) => Taken::Copied,
                    Err(FrameFault) => Taken::FrameFault,
                }
            }
        }
    }

    /// Copies the bytes of `sub` into `out`, where all are present, without a ticket. None comes exactly where one of
    /// them is not present.
    ///
    /// `FrameFault` comes only where the frame's count of failures rose in this call. After another answer than Ok
    /// `out` may hold anything.
    pub fn peek(&mut self, sub: ByteRange, out: &mut [u8]) -> Option<Result<(), FrameFault>>
        requires sub { LiesInRange sub self.old.metadata }
        requires len { length out.old ≡ sub.end - sub.start }
        ensures same { FrameOnly self.old self.new }
        ensures some { is_some result ≡ are_present sub self.old.metadata.region }
        ensures fault { IfSome result (λ r. OnErr r (Faulted self.old.metadata.frame self.new.metadata.frame)) }
        ensures bytes { IfSome result (λ r. OnOk r (CellBytes self.old sub.start sub.end out.new)) }
        ensures content { IfSome result (λ r. OnOk r (RangeContent A.tells (content A.blobs) self.old sub out.new)) }
    {
        if !self.tracker.has_all(sub) {
            return None;
        }
        Some(self.frame.get(sub.start as u32, out))
    }

    /// Stores a piece of the key's file at the present end of an open gap of the caller's. Ok is progress of the gap
    /// by the piece's length.
    ///
    /// `FrameFault` comes only where the frame's count of failures rose in this call. Which bytes are present,
    /// pending and absent is then as before.
    pub fn store(&mut self, gap: u32, piece: &Piece<A>) -> Result<(), FrameFault>
        requires gap { IsSome (gap_in gap self.old) }
        requires piece { IfSome (gap_in gap self.old) (λ g. FitsCell self.old g piece.now) }
        ensures rest { StoreOnly self.old self.new }
        ensures ok { OnOk result (IfSome (gap_in gap self.old) (Stored gap piece.now.bytes self.old self.new)) }
        ensures err { OnErr result (self.new.metadata.region ≡ self.old.metadata.region) }
        ensures outside { OnErr result (IfSome (gap_in gap self.old) (Unstored piece.now.bytes self.old self.new)) }
        ensures fault { OnErr result (Faulted self.old.metadata.frame self.new.metadata.frame) }
    {
        self.tracker.lesson();
        let bytes = piece.bytes();
        let at = (piece.at() % self.size as u64) as u32;
        self.frame.put(at, bytes)?;
        self.tracker.progress(gap, at + bytes.len() as u32);
        Ok(())
    }

    /// The gap's bytes that are still pending are absent again, and the gap is closed. Each ticket that waits for one
    /// of them is marked failed.
    pub fn fail(&mut self, gap: u32)
        requires { IsSome (gap_in gap self.old) }
        ensures { self.new ≡ with_region (fail gap self.old.metadata.region) self.old }
    {
        self.tracker.fail(gap);
    }

    /// Forgets the ticket.
    pub fn leave(&mut self, ticket: u32)
        requires { IsSome (ticket_in ticket self.old) }
        ensures { self.new ≡ with_region (leave ticket self.old.metadata.region) self.old }
    {
        self.tracker.leave(ticket);
    }
}

// A missing proof of `Send` shows here, and not first at the threads above.
fn crosses<T: Send>() {}

/// A cell may be handed from thread to thread where its frame may.
pub fn cell_crosses<A: Archive + Send, F: Frame + Send>() {
    crosses::<RegionCell<A, F>>();
}
