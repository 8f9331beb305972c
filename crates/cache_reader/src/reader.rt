// Reads of a mount's files.
ghost use Rattle.std.specs.Option.{ForSome};
ghost use Rattle.std.specs.Prelude.{◌<◌, ◌≤◌, ◌+◌, ◌≡◌, false, None, IsTrue, IsOk, OnOk, length};
ghost use Rattle.region_ranges.specs.Keys.{IsConfig};
ghost use Rattle.directory_input.specs.Causes.{HasReadCause, refusal};
ghost use Rattle.directory_input.specs.Reads.{Read, one_read, slice_of};
ghost use Rattle.cache_door.specs.Doors.{nothing};
ghost use Rattle.cache_reader.specs.Parts.{read_setting};
ghost use Rattle.cache_reader.specs.Going.{moment};
ghost use Rattle.cache_reader.specs.Reports.{no_bytes};
ghost use Rattle.cache_reader.specs.Reader.{Reported};
ghost use Rattle.cache_reader.specs.Alone.{LastFits, last_fits_prop};

use crate::Report;
use crate::part::{Last, Setting};
use crate::parts::read_parts;
use blob_parts::PartTable;
use cache_door::CacheDoor;
use cache_outside::{Archive, BlobSource};
use directory_input::{BytesError, FileBytes};
use region_ranges::Config;
use std::alloc::Global;

/// The files of a mount, read through a door into the cache. A reader lives for one line: the door, the source and the
/// table are lent to it for so long.
#[derive(Drop)]
pub struct Reader<'a, A: Archive, D: CacheDoor<A>, S: BlobSource<A>> {
    alloc: Global,
    door: &'a mut D,
    source: &'a mut S,
    table: &'a PartTable<A>,
    setting: Setting,
    last: Option<Last>,
    total: Report,
    /// A read was refused for want of memory.
    out_of_memory: bool,
    ghost free: { (D.view door.now).hold ≡ nothing },
    ghost own: { (D.view door.now).config ≡ setting.config },
    ghost limits: { IsConfig setting.config },
    ghost below: { setting.mount < 4096 },
    ghost reach: { ForSome last (λ l. l.region < setting.config.regions) },
    ghost fits: { LastFits setting.mount setting.time last (D.view door.now).state } by { last_fits_prop setting.mount
        setting.time last (D.view door.now).state },
}

/// What clauses see of a reader. It has a meaning alone.
pub trait Seen {
    ghost use Rattle.cache_reader.specs.Reader.{ReaderView};

    /// What stays the same while the reader lives, its source and door, the sums of its reads, and whether a read of it
    /// was refused for want of memory.
    ghost seen: { Self → ReaderView };
}

impl<'a, A: Archive, D: CacheDoor<A>, S: BlobSource<A>> Seen for Reader<'a, A, D, S> {
    ghost seen = { λ d. record {
      setting = read_setting A.tells A.blobs d.table.now d.setting;
      moment = moment (S.view d.source.now) (D.view d.door.now);
      total = d.total;
      out_of_memory = d.out_of_memory;
    } };
}

impl<'a, A: Archive, D: CacheDoor<A>, S: BlobSource<A>> Reader<'a, A, D, S> {
    /// The files of this table, for a mount by its number, at the time `now` in milliseconds. It takes no memory.
    pub fn new(
        alloc: Global,
        door: &'a mut D,
        source: &'a mut S,
        table: &'a PartTable<A>,
        mount: u32,
        config: &Config,
        now: u64,
    ) -> Reader<'a, A, D, S>
        requires free { (D.view door.old).hold ≡ nothing }
        requires setting { (D.view door.old).config ≡ config.now }
        requires limits { IsConfig config.now }
        requires below { mount < 4096 }
        ensures same_door { result.door.ghost_name ≡ door.entry.ghost_name }
        ensures door { result.door.now ≡ door.old }
        ensures same_source { result.source.ghost_name ≡ source.entry.ghost_name }
        ensures source { result.source.now ≡ source.old }
        ensures table { result.table ≡ table.entry }
        ensures setting { result.setting ≡ record { mount = mount; config = config.now; time = now } }
        ensures last { result.last ≡ None }
        ensures total { result.total ≡ no_bytes }
        ensures unmarked { result.out_of_memory ≡ false }
    {
        Reader {
            alloc,
            door,
            source,
            table,
            setting: Setting {
                mount,
                config: *config,
                time: now,
            },
            last: None,
            total: Report::new(),
            out_of_memory: false,
        }
    }

    /// The sums of all reads so far. A read that was refused counts with what it had done by then. Each sum stops at
    /// the last value of its type.
    pub fn total(&self) -> Report
        ensures { result ≡ (⟦<Reader<'a, A, D, S> as Seen>⟧.seen self.now).total }
    {
        self.total
    }

    /// Fills `out` with the file's bytes from place `at` on, and says which way they came: `hit` and `direct` together
    /// are all of them. An empty read is answered at once: it asks neither the door nor the source.
    ///
    /// `Fault` comes only where the source's count of failures rose in this call. `Gone` comes only with this reader's
    /// mount, where the door has seen that it was unmounted. After a refusal `out` may hold anything up to the end of
    /// the part that was refused, and the bytes of the parts before it count. Whatever the answer, the door holds
    /// nothing behind it. Bytes are read past the cache only where the door turned the reader away.
    ///
    /// Where the archive tells, the state of the cache is told, one actor works alone and nothing fails or wants
    /// memory, the bytes that are taken, the counts and the state behind the read are just those of the entries for its
    /// parts, one after another, but for parts that are copied at a glance. Where the least interval between accesses
    /// that count is at least 1, an entry for such a part would have taken and changed nothing.
    pub fn read(&mut self, file: u32, at: u64, out: &mut [u8]) -> Result<Report, BytesError>
        requires file { file < (⟦<Reader<'a, A, D, S> as FileBytes>⟧.view self.old).count }
        requires inside { at + length out.old ≤ (⟦<Reader<'a, A, D, S> as FileBytes>⟧.view self.old).lengths file }
        ensures bytes { let files = ⟦<Reader<'a, A, D, S> as FileBytes>⟧.view self.old in
            IsTrue files.tells → OnOk result (out.new ≡ slice_of at (length out.old) (files.bytes file)) }
        ensures goes { ⟦<Reader<'a, A, D, S> as FileBytes>⟧.goes_by
            (one_read file at (length out.old)) self.old self.new }
        ensures cause { let view = ⟦<Reader<'a, A, D, S> as FileBytes>⟧.view in
            HasReadCause (view self.old) (view self.new) (refusal result) }
        ensures report { let seen = ⟦<Reader<'a, A, D, S> as Seen>⟧.seen in
            let read : Read = record { file = file; at = at; size = length out.old } in
            Reported read result out.old out.new (seen self.old) (seen self.new) }
        ensures empty { let seen = ⟦<Reader<'a, A, D, S> as Seen>⟧.seen in
            length out.old ≡ 0 → IsOk result × ((seen self.new).moment ≡ (seen self.old).moment) }
    {
        let mut report = Report::new();
        let answer = read_parts(
            self.alloc,
            self.door,
            self.source,
            self.table,
            file,
            at,
            &self.setting,
            &mut self.last,
            out,
            &mut report,
        );
        self.total.add(&report);
        match answer {
            Ok(()) => Ok(report),
            Err(e) => {
                self.out_of_memory = self.out_of_memory || matches!(e, BytesError::NoMemory);
                Err(e)
            }
        }
    }
}

impl<'a, A: Archive, D: CacheDoor<A>, S: BlobSource<A>> FileBytes for Reader<'a, A, D, S> {
    ghost use Rattle.std.proofs.Common.{refl, ap, ◌∙◌};
    ghost use Rattle.cache_reader.specs.Reader.{ReadsOn, files_seen};
    ghost use Rattle.cache_reader.specs.Onward.{no_reads, more_of_same, same_setting, files_kept};

    ghost view = { λ d. files_seen (read_setting A.tells A.blobs d.table.now d.setting)
        (moment (S.view d.source.now) (D.view d.door.now)) d.out_of_memory };

    ghost goes_by = { λ rs x y. (y.door.ghost_name ≡ x.door.ghost_name) × (y.source.ghost_name ≡ x.source.ghost_name)
        × (y.table ≡ x.table) × (y.setting ≡ x.setting)
        × D.stays x.door.now y.door.now × ((D.view y.door.now).hold ≡ nothing)
        × ReadsOn rs (⟦<Reader<'a, A, D, S> as Seen>⟧.seen x) (⟦<Reader<'a, A, D, S> as Seen>⟧.seen y) };

    ghost by_none = { λ x. (
      refl,
      refl,
      refl,
      refl,
      D.stays_same x.door.now,
      x.free,
      no_reads (read_setting A.tells A.blobs x.table.now x.setting) (D.view x.door.now).actor x.total x.out_of_memory
          (moment (S.view x.source.now) (D.view x.door.now)),
    ) };

    ghost by_more = { λ rs ss x y z h k. (
      k.0 ∙ h.0,
      k.1 ∙ h.1,
      k.2 ∙ h.2,
      k.3 ∙ h.3,
      D.stays_on x.door.now y.door.now z.door.now h.4 k.4,
      k.5,
      more_of_same (read_setting A.tells A.blobs x.table.now x.setting)
          (read_setting A.tells A.blobs y.table.now y.setting) (D.view x.door.now).actor (D.view y.door.now).actor
          rs ss x.total y.total z.total x.out_of_memory y.out_of_memory z.out_of_memory
          (moment (S.view x.source.now) (D.view x.door.now)) (moment (S.view y.source.now) (D.view y.door.now))
          (moment (S.view z.source.now) (D.view z.door.now))
          (same_setting A.tells A.blobs x.table.now y.table.now x.setting y.setting (ap (λ t. t.now) h.2) h.3)
          (D.later x.door.now y.door.now h.4).actor h.6 k.6,
    ) };

    ghost later = { λ rs x y h. files_kept (read_setting A.tells A.blobs x.table.now x.setting)
        (read_setting A.tells A.blobs y.table.now y.setting) (D.view x.door.now).actor rs x.total y.total
        x.out_of_memory y.out_of_memory
        (moment (S.view x.source.now) (D.view x.door.now)) (moment (S.view y.source.now) (D.view y.door.now))
        (same_setting A.tells A.blobs x.table.now y.table.now x.setting y.setting (ap (λ t. t.now) h.2) h.3)
        (D.later x.door.now y.door.now h.4) h.6 };

    fn len(&self, file: u32) -> u64 {
        self.table.length(file)
    }

    fn read(&mut self, file: u32, at: u64, out: &mut [u8]) -> Result<(), BytesError> {
        match self.read(file, at, out) {
            Ok(_) => Ok(()),
            Err(e) => Err(e),
        }
    }
}
