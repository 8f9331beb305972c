//! Reads of files through a cache of one, two or four regions, over frames in memory.

ghost use Rattle.std.specs.Prelude.{◌≡◌, ◌<◌, length};
ghost use Rattle.directory_input.specs.Reads.{one_read};
ghost use Rattle.cache_door.specs.Doors.{nothing};
ghost use Rattle.region_ranges.specs.Keys.{IsConfig};

use crate::passes::{read_by_one_pass, read_by_pass};
use crate::samples::{FOUR, ONE, Stand, sample_source};
use crate::steps::Step;
use blob_parts::PartTable;
use byte_text::{Blobs, Name, Text};
use cache_door::{CacheDoor, Entered};
use cache_outside::{Archive, MemSource, SourceCall, Untold, manifests_in};
use cache_reader::{Reader, Report};
use directory_input::{BytesError, FileBytes};
use region_ranges::{ByteRange, Config};
use sample_archive::SampleArchive;
use std::alloc::{AllocError, Global};
use std::process::Abort;
use std::sync::Wait;
use std::test::Fail;

/// Every access counts.
const EAGER: Config = Config {
    min_delta: 0,
    ..FOUR
};

/// One region of 128 KiB, which is one range.
const WIDE: Config = Config {
    region: 131_072,
    range: 131_072,
    ..ONE
};

/// One region of 256 KiB, which is one range.
const WHOLE: Config = Config {
    region: 262_144,
    range: 262_144,
    ..ONE
};

/// A read of the first file from a place on: the bytes that are there, and what is reported, or None for a fault.
#[derive(Clone, Copy)]
pub(crate) struct Case {
    pub(crate) at: u64,
    pub(crate) bytes: &'static [u8],
    pub(crate) answer: Option<Report>,
}

/// What is left behind the reads: what was read of the source, and the counts of the core.
#[derive(Clone, Copy)]
pub(crate) struct Left {
    pub(crate) reads: &'static [(u32, u64, u64)],
    pub(crate) evictions: u64,
    pub(crate) promotions: u64,
    pub(crate) mapped: u32,
    pub(crate) free: u32,
}

pub(crate) fn report(hit: u64, fetched: u64, direct: u64) -> Option<Report> {
    Some(Report {
        hit,
        fetched,
        direct,
    })
}

// The sums of a reader that read nothing directly.
fn sum(hit: u64, fetched: u64) -> Report {
    Report {
        hit,
        fetched,
        direct: 0,
    }
}

pub(crate) fn front(answer: Option<Report>) -> Case {
    Case {
        at: 0,
        bytes: &[0, 1, 2, 3],
        answer,
    }
}

pub(crate) fn second(answer: Option<Report>) -> Case {
    Case {
        at: 4096,
        bytes: &[0x50, 0x51, 0x52, 0x53],
        answer,
    }
}

/// The last six bytes of the first region and the first ten of the second one.
fn across(answer: Option<Report>) -> Case {
    Case {
        at: 4090,
        bytes: &[
            0x4a, 0x4b, 0x4c, 0x4d, 0x4e, 0x4f, 0x50, 0x51, 0x52, 0x53, 0x54, 0x55, 0x56, 0x57,
            0x58, 0x59,
        ],
        answer,
    }
}

/// Makes the read, and compares the bytes that it answers. What it reports, or None for a fault.
fn read_next<'a, A: Archive, D: CacheDoor<A>>(
    rt: &impl Abort,
    reader: &mut Reader<'a, A, D, MemSource<A>>,
    case: &Case,
) -> Option<Report>
    requires file { 0 < (⟦<Reader<'a, A, D, MemSource<A>> as FileBytes>⟧.view reader.old).count }
    ensures goes { let read = one_read 0 case.now.at (length case.now.bytes.now) in
        ⟦<Reader<'a, A, D, MemSource<A>> as FileBytes>⟧.goes_by read reader.old reader.new }
    ensures count { let view = ⟦<Reader<'a, A, D, MemSource<A>> as FileBytes>⟧.view in
        (view reader.new).count ≡ (view reader.old).count }
{
    let wanted = case.bytes;
    assert!(rt; wanted.len() <= 16);
    let mut room = [0; 16];
    let out = &mut room[..wanted.len()];
    let length = reader.len(0);
    assert!(rt; case.at <= length && wanted.len() as u64 <= length - case.at);
    match reader.read(0, case.at, out) {
        Ok(report) => {
            assert!(rt; *out == *wanted, "at {}", case.at);
            Some(report)
        }
        Err(error) => {
            assert!(rt; error == BytesError::Fault);
            None
        }
    }
}

/// Makes the read through a reader of its own, whose sum is that of the one read.
fn read<A: Archive, D: CacheDoor<A>>(
    rt: &(impl Abort + AllocGlobal),
    door: &mut D,
    source: &mut MemSource<A>,
    table: &PartTable<A>,
    config: &Config,
    case: &Case,
) -> bool
    requires free { (D.view door.old).hold ≡ nothing }
    requires setting { (D.view door.old).config ≡ config.now }
    requires limits { IsConfig config.now }
    requires file { 0 < length table.now.files }
    ensures stays { D.stays door.old door.new }
    ensures hold { (D.view door.new).hold ≡ nothing }
    ensures config { (D.view door.new).config ≡ config.now }
{
    let mut reader = Reader::new(rt.alloc(), door, source, table, 0, config, 0);
    let answer = read_next(rt, &mut reader, case);
    answer == case.answer && (answer.is_none() || Some(reader.total()) == answer)
}

/// The place of the first read that answers otherwise, or None. Each read has a reader of its own.
pub(crate) fn first_other<A: Archive, D: CacheDoor<A>>(
    rt: &(impl Abort + AllocGlobal),
    door: &mut D,
    source: &mut MemSource<A>,
    table: &PartTable<A>,
    config: &Config,
    cases: &[Case],
) -> Option<usize>
    requires free { (D.view door.old).hold ≡ nothing }
    requires setting { (D.view door.old).config ≡ config.now }
    requires limits { IsConfig config.now }
    requires file { 0 < length table.now.files }
    ensures stays { D.stays door.old door.new }
    ensures hold { (D.view door.new).hold ≡ nothing }
    ensures config { (D.view door.new).config ≡ config.now }
{
    for (place, case) in cases.iter().enumerate() {
        if !read(rt, door, source, table, config, case) {
            return Some(place);
        }
    }
    None
}

/// The same of reads that go through one reader, whose sums behind each are these.
pub(crate) fn first_other_sum<A: Archive, D: CacheDoor<A>>(
    rt: &(impl Abort + AllocGlobal),
    door: &mut D,
    source: &mut MemSource<A>,
    table: &PartTable<A>,
    config: &Config,
    cases: &[(Case, Report)],
) -> Option<usize>
    requires free { (D.view door.old).hold ≡ nothing }
    requires setting { (D.view door.old).config ≡ config.now }
    requires limits { IsConfig config.now }
    requires file { 0 < length table.now.files }
{
    let mut reader = Reader::new(rt.alloc(), door, source, table, 0, config, 0);
    for (place, (case, total)) in cases.iter().enumerate() {
        if read_next(rt, &mut reader, case) != case.answer || reader.total() != *total {
            return Some(place);
        }
    }
    None
}

/// Makes the reads as this actor, each through a reader of its own.
pub(crate) fn read_each<A: Archive + Drop>(
    rt: &(impl Abort + AllocGlobal),
    stand: Stand<A>,
    actor: u32,
    cases: &[Case],
    left: &Left,
) -> Result<(), Fail> {
    let Stand {
        mut source,
        table,
        mut core,
        config,
    } = stand;
    assert!(rt; actor < 2);
    assert!(rt; core.hold_of(actor).is_none());
    let mut door = core.door(actor);
    assert_eq!(rt;
        first_other(rt, &mut door, &mut source, &table, &config, cases),
        None
    );
    assert_eq!(rt; source.reads(), left.reads);
    let tally = core.tally();
    assert_eq!(rt;
        (
            tally.evictions,
            tally.promotions,
            tally.demotions,
            tally.listed
        ),
        (left.evictions, left.promotions, 0, left.mapped)
    );
    assert_eq!(rt; (core.free_len(), core.leaving_len()), (left.free, 0));
    Ok(())
}

/// Makes the reads as the first actor, all through one reader. Behind each its sums are these.
fn read_by_one<A: Archive + Drop>(
    rt: &(impl Abort + AllocGlobal),
    stand: Stand<A>,
    cases: &[(Case, Report)],
    promotions: u64,
) -> Result<(), Fail> {
    let Stand {
        mut source,
        table,
        mut core,
        config,
    } = stand;
    assert!(rt; table.files() > 0);
    assert!(rt; core.hold_of(0).is_none());
    let mut door = core.door(0);
    assert_eq!(rt;
        first_other_sum(rt, &mut door, &mut source, &table, &config, cases),
        None
    );
    assert_eq!(rt; core.tally().promotions, promotions);
    Ok(())
}

/// A source of the sample archive that fails at these calls.
fn listed_source(
    rt: &(impl Abort + AllocGlobal),
    fails: &[(SourceCall, u64)],
) -> Result<MemSource<SampleArchive>, AllocError> {
    let mut listed = Vec::new(rt.alloc());
    listed.extend_from_slice(fails)?;
    sample_source(rt.alloc(), listed)
}

/// A core over the sample archive's manifest, and reads of its first file.
fn stand(
    rt: &(impl Abort + AllocGlobal),
    config: &Config,
    manifest: &str,
    fails: &[(SourceCall, u64)],
) -> Result<Stand<SampleArchive>, AllocError>
    requires { IsConfig config.now }
{
    let source = listed_source(rt, fails)?;
    Stand::new(rt, rt.alloc(), source, config, manifest, false)
}

#[test]
fn what_reads_take(rt: HostRuntime) -> Result<(), Fail> {
    let cases = [
        across(report(16, 8192, 0)),
        across(report(16, 0, 0)),
        Case {
            at: 9999,
            bytes: &[0xd2],
            answer: report(1, 1808, 0),
        },
        Case {
            at: 10_000,
            bytes: &[],
            answer: report(0, 0, 0),
        },
    ];
    // the manifest, and a region each
    let left = Left {
        reads: &[(8, 0, 93), (2, 0, 4096), (2, 4096, 4096), (2, 8192, 1808)],
        evictions: 0,
        promotions: 0,
        mapped: 3,
        free: 1,
    };
    read_each(&rt, stand(&rt, &FOUR, "mount-y", &[])?, 0, &cases, &left)?;
    read_by_pass(
        &rt,
        listed_source(&rt, &[])?,
        &FOUR,
        "mount-y",
        false,
        &cases,
        left.reads,
    )
}

#[test]
fn a_read_across_two_parts(rt: HostRuntime) -> Result<(), Fail> {
    let case = Case {
        at: 98,
        bytes: b" red",
        answer: report(4, 172, 0),
    };
    let left = Left {
        reads: &[(7, 0, 148), (0, 0, 100), (1, 0, 72)],
        evictions: 0,
        promotions: 0,
        mapped: 1,
        free: 3,
    };
    read_each(&rt, stand(&rt, &FOUR, "mount-x", &[])?, 0, &[case], &left)?;
    read_by_pass(
        &rt,
        listed_source(&rt, &[])?,
        &FOUR,
        "mount-x",
        false,
        &[case],
        left.reads,
    )
}

#[test]
fn a_cache_of_one_region(rt: HostRuntime) -> Result<(), Fail> {
    let fetched = report(4, 4096, 0);
    let cases = [front(fetched), second(fetched), front(fetched)];
    let left = Left {
        reads: &[(8, 0, 93), (2, 0, 4096), (2, 4096, 4096), (2, 0, 4096)],
        evictions: 2,
        promotions: 0,
        mapped: 1,
        free: 0,
    };
    read_each(&rt, stand(&rt, &ONE, "mount-y", &[])?, 0, &cases, &left)?;
    read_by_pass(
        &rt,
        listed_source(&rt, &[])?,
        &ONE,
        "mount-y",
        false,
        &cases,
        left.reads,
    )
}

/// The first actor holds the only region. The second one is turned away: it reads directly, and wants no memory.
#[test]
fn a_reader_without_room(rt: HostRuntime) -> Result<(), Fail> {
    let mut stand = stand(&rt, &ONE, "mount-y", &[])?;
    let enters = Step::Enter {
        actor: 0,
        mount: 0,
        part: ByteRange { start: 0, end: 4 },
        answer: Entered::Held {
            region: 0,
            gap: Some(ByteRange {
                start: 0,
                end: 4096,
            }),
        },
    };
    assert_eq!(rt; stand.first_other(rt.alloc(), &[enters])?, None);
    let left = Left {
        reads: &[(8, 0, 93), (2, 4096, 4)],
        evictions: 0,
        promotions: 0,
        mapped: 1,
        free: 0,
    };
    read_each(&rt, stand, 1, &[second(report(0, 0, 4))], &left)
}

/// A read of two parts whose second one fails counts the first; the next reads of the same reader go on from there.
#[test]
fn a_part_that_fails(rt: HostRuntime) -> Result<(), Fail> {
    // read 2 fails: the first region; read 3 is the first region, and read 4, the second one, fails
    let cases = [
        (front(None), sum(0, 0)),
        (across(None), sum(6, 4096)),
        (across(report(16, 4096, 0)), sum(22, 8192)),
    ];
    let fails = [(SourceCall::Read, 2), (SourceCall::Read, 4)];
    read_by_one(&rt, stand(&rt, &FOUR, "mount-y", &fails)?, &cases, 0)?;
    read_by_one_pass(&rt, listed_source(&rt, &fails)?, &FOUR, "mount-y", &cases)?;
    let cases = [
        (front(None), sum(0, 0)),
        (front(report(4, 4096, 0)), sum(4, 4096)),
        (
            Case {
                at: 4092,
                bytes: &[0x4c, 0x4d, 0x4e, 0x4f],
                answer: report(4, 0, 0),
            },
            sum(8, 4096),
        ),
        (
            Case {
                at: 4096,
                bytes: &[0x50],
                answer: report(1, 4096, 0),
            },
            sum(9, 8192),
        ),
    ];
    read_by_one(&rt, stand(&rt, &FOUR, "mount-y", &fails[..1])?, &cases, 0)?;
    read_by_one_pass(
        &rt,
        listed_source(&rt, &fails[..1])?,
        &FOUR,
        "mount-y",
        &cases,
    )
}

/// The part that was copied last is looked at once more with no entry, which would count as an access. A new reader
/// enters.
#[test]
fn a_glance_comes_first(rt: HostRuntime) -> Result<(), Fail> {
    let cases = [
        (front(report(4, 4096, 0)), sum(4, 4096)),
        (front(report(4, 0, 0)), sum(8, 4096)),
        (
            Case {
                at: 4092,
                bytes: &[0x4c, 0x4d],
                answer: report(2, 0, 0),
            },
            sum(10, 4096),
        ),
    ];
    read_by_one(&rt, stand(&rt, &EAGER, "mount-y", &[])?, &cases, 0)?;
    read_by_one_pass(&rt, listed_source(&rt, &[])?, &EAGER, "mount-y", &cases)?;
    let cases = [front(report(4, 4096, 0)), front(report(4, 0, 0))];
    let left = Left {
        reads: &[(8, 0, 93), (2, 0, 4096)],
        evictions: 0,
        promotions: 1,
        mapped: 1,
        free: 3,
    };
    read_each(&rt, stand(&rt, &EAGER, "mount-y", &[])?, 0, &cases, &left)
}

const MANIFEST_BIG: &[u8] =
    b"{\"version\":1,\"files\":[{\"name\":\"__big\",\"physical_name\":\"big.bin\",\"length\":140000}],\"segments\":[]}";

/// A source of one file of 140,000 bytes, all 7, that fails at these calls. Any other read is answered whole.
fn big_source(
    rt: &(impl Abort + AllocGlobal),
    fails: &[(SourceCall, u64)],
) -> Result<MemSource<Untold>, AllocError> {
    let alloc = rt.alloc();
    let mut listed = Vec::new(alloc);
    listed.extend_from_slice(fails)?;
    let mut blobs = Blobs::new(alloc);
    let bytes = Text::from_vec(vec![in alloc; 7; 140_000]?);
    for (name, bytes) in [
        (b"__big".as_slice(), bytes),
        (b"mount-big".as_slice(), Text::of(alloc, MANIFEST_BIG)?),
    ] {
        if let Some(name) = Name::read(alloc, name)? {
            blobs.push((name, bytes))?;
        }
    }
    assert!(rt; manifests_in(&blobs) <= 65_536);
    Ok(MemSource::<Untold>::new(alloc, blobs, 1_000_000, listed))
}

/// Makes the reads of that file through a core and through a pass, each of one region.
fn read_big(
    rt: &(impl Abort + AllocGlobal + Wait),
    config: &Config,
    fails: &[(SourceCall, u64)],
    cases: &[Case],
    reads: &'static [(u32, u64, u64)],
) -> Result<(), Fail>
    requires { IsConfig config.now }
{
    let source = big_source(rt, fails)?;
    let stand = Stand::new(rt, rt.alloc(), source, config, "mount-big", false)?;
    let left = Left {
        reads,
        evictions: 0,
        promotions: 0,
        mapped: 1,
        free: 0,
    };
    read_each(rt, stand, 0, cases, &left)?;
    let source = big_source(rt, fails)?;
    read_by_pass(rt, source, config, "mount-big", false, cases, reads)
}

/// A gap is fetched in pieces of 65,536 bytes.
#[test]
fn pieces_of_a_gap(rt: HostRuntime) -> Result<(), Fail> {
    let case = Case {
        at: 131_000,
        bytes: &[7, 7],
        answer: report(2, 131_072, 0),
    };
    let reads = &[(1, 0, 96), (0, 0, 65_536), (0, 65_536, 65_536)];
    read_big(&rt, &WIDE, &[], &[case], reads)
}

/// The second piece of the gap fails: the first one stays, and the next gap begins behind it.
#[test]
fn a_piece_that_fails(rt: HostRuntime) -> Result<(), Fail> {
    let far = |answer: Option<Report>| Case {
        at: 100_000,
        bytes: &[7, 7, 7, 7],
        answer,
    };
    let near = Case {
        at: 0,
        bytes: &[7, 7, 7, 7],
        answer: report(4, 0, 0),
    };
    let cases = [far(None), near, far(report(4, 74_464, 0))];
    let reads = &[
        (1, 0, 96),
        (0, 0, 65_536),
        (0, 65_536, 65_536),
        (0, 131_072, 8928),
    ];
    read_big(&rt, &WHOLE, &[(SourceCall::Read, 3)], &cases, reads)
}
