//! A cell step by step: a region of 8,192 bytes of the file of 10,000 counted bytes, in ranges of 4,096.

ghost use Rattle.std.specs.Prelude.{◌≡◌, ◌<◌, IfOk, IfSome, OnOk, length};
ghost use Rattle.blob_parts.specs.Pieces.{IsPieceAt};
ghost use Rattle.blob_parts.specs.Tables.{file_length};
ghost use Rattle.cache_checks.specs.CellSteps.{IsAt, fresh, claimed, begun, joined, lost};

use crate::faulty::Faulty;
use crate::samples::{ONE, sample_source, table_of};
use blob_parts::{FetchError, PartTable, Piece, fetch};
use cache_outside::{FrameFault, MemSource};
use region_cell::{RegionCell, Taken};
use region_ranges::{ByteRange, Config, RegionKey, region_len};
use sample_archive::SampleArchive;
use sparse_tracker::{Claim, Gap};
use std::alloc::{AllocError, Global};
use std::process::Abort;
use std::test::Fail;

const CONFIG: Config = Config {
    region: 8192,
    ..ONE
};

type Cell = RegionCell<SampleArchive, Faulty>;

// The table of the file.
fn counted(
    rt: &(impl Abort + AllocGlobal),
    source: &mut MemSource<SampleArchive>,
) -> Option<PartTable<SampleArchive>>
    ensures { IfSome result (λ t. (t.number ≡ 2) × (0 < length t.files) × (file_length t 0 ≡ 10000)) }
{
    let table = table_of(rt, rt.alloc(), source, "mount-y");
    if table.number() != 2 || table.files() == 0 || table.length(0) != 10_000 {
        return None;
    }
    Some(table)
}

// The first 150 bytes of the file.
fn piece(
    alloc: Global,
    source: &mut MemSource<SampleArchive>,
    table: &PartTable<SampleArchive>,
) -> Result<Piece<SampleArchive>, FetchError>
    requires { (table.now.number ≡ 2) × (0 < length table.now.files) × (file_length table.now 0 ≡ 10000) }
    ensures { IfOk result (IsPieceAt 2 0 0 150) }
{
    fetch(alloc, source, table, 0, 0, 150)
}

// A cell for the file's first region.
fn first(alloc: Global, table: &PartTable<SampleArchive>) -> Result<Cell, AllocError>
    requires { (table.now.number ≡ 2) × (0 < length table.now.files) × (file_length table.now 0 ≡ 10000) }
    ensures { IfOk result (λ c. IsAt fresh c.metadata) }
{
    let mut cell = Cell::new(alloc, Faulty::new(alloc, 8192, false)?, &CONFIG);
    let key = RegionKey {
        manifest: 2,
        file: 0,
        region: 0,
    };
    let length = table.length(0);
    cell.assign(key, region_len(length, 0, 8192));
    Ok(cell)
}

fn claim(cell: &mut Cell) -> Result<Claim, AllocError>
    requires { IsAt fresh cell.old.metadata }
    ensures { OnOk result (IsAt claimed cell.new.metadata) }
{
    cell.reserve()?;
    let claim = cell.claim(ByteRange {
        start: 100,
        end: 200,
    })?;
    Ok(claim)
}

fn store(cell: &mut Cell, piece: &Piece<SampleArchive>) -> Result<(), FrameFault>
    requires cell { IsAt claimed cell.old.metadata }
    requires piece { IsPieceAt 2 0 0 150 piece.now }
    ensures { OnOk result (IsAt begun cell.new.metadata) }
{
    cell.store(0, piece)
}

fn copy(cell: &mut Cell) -> Taken
    requires { IsAt begun cell.old.metadata }
    ensures { IsAt begun cell.new.metadata }
{
    let mut out = [0; 100];
    cell.copy(0, &mut out)
}

fn join(cell: &mut Cell) -> Result<Claim, AllocError>
    requires { IsAt begun cell.old.metadata }
    ensures { OnOk result (IsAt joined cell.new.metadata) }
{
    let claim = cell.claim(ByteRange {
        start: 120,
        end: 130,
    })?;
    Ok(claim)
}

fn copy_joined(cell: &mut Cell, out: &mut [u8]) -> Taken
    requires cell { IsAt joined cell.old.metadata }
    requires len { length out.old ≡ 10 }
    ensures { IsAt joined cell.new.metadata }
{
    cell.copy(1, out)
}

fn lose(cell: &mut Cell) -> Taken
    requires { IsAt joined cell.old.metadata }
    ensures { IsAt lost cell.new.metadata }
{
    cell.fail(0);
    let mut out = [0; 100];
    cell.copy(0, &mut out)
}

fn claim_again(cell: &mut Cell) -> Result<Claim, AllocError>
    requires { IsAt lost cell.old.metadata }
{
    cell.claim(ByteRange {
        start: 100,
        end: 200,
    })
}

fn told(start: u64, ticket: u32) -> Claim {
    let range = ByteRange { start, end: 4096 };
    Claim {
        gap: Some(Gap { id: 0, range }),
        ticket,
    }
}

// The steps behind the store of a piece.
fn goes_on(rt: &impl Abort, cell: &mut Cell) -> Result<(), AllocError>
    requires { IsAt begun cell.old.metadata }
{
    let early = copy(cell);
    assert_eq!(rt; early, Taken::Waiting);
    let second = join(cell)?;
    assert!(rt; second.gap.is_none() && second.ticket == 1);
    let mut out = [0; 10];
    let taken = copy_joined(cell, &mut out);
    assert_eq!(rt; taken, Taken::Copied);
    assert_eq!(rt;
        out,
        [0x78, 0x79, 0x7a, 0x7b, 0x7c, 0x7d, 0x7e, 0x7f, 0x80, 0x81]
    );
    let failed = lose(cell);
    assert_eq!(rt; failed, Taken::Failed);
    let third = claim_again(cell)?;
    assert!(rt; third == told(150, 2));
    Ok(())
}

#[test]
fn a_cell_step_by_step(rt: HostRuntime) -> Result<(), Fail> {
    let alloc = rt.alloc();
    let mut source = sample_source(alloc, Vec::new(alloc))?;
    let table = counted(&rt, &mut source).expect(&rt, "the file of 10,000 bytes");
    let mut cell = first(alloc, &table)?;
    assert_eq!(rt; cell.len(), 8192);
    let claim = claim(&mut cell)?;
    assert!(rt; claim == told(0, 0));
    let piece = piece(alloc, &mut source, &table)?;
    store(&mut cell, &piece)?;
    goes_on(&rt, &mut cell)?;
    Ok(())
}
