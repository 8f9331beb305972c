// Blocks by several workers, run one at a time.
ghost use Rattle.std.specs.Prelude.{◌≡◌, ◌≤◌, IsTrue};
ghost use Rattle.region_ranges.specs.Keys.{IsConfig};
ghost use Rattle.script_run.specs.Blocks.{NoMounts};
ghost use Rattle.shared_run.specs.Workers.{IsIdle};

use super::{Cache, Shared, Source, Worker, config_of, open, sample_sources};
use byte_text::{Name, Text};
use cache_door::CacheDoor;
use cache_table::TableDoor;
use index_mounts::Roster;
use mount_script::{Command, Line, Reply, Script};
use region_ranges::Config;
use sample_archive::SampleArchive;
use script_run::mount_line;
use shared_run::{OpenGate, run_block};
use std::alloc::{AllocError, Global};
use std::process::Abort;
use std::sync::Wait;
use std::test::Fail;
use std::thread::Threads;

/// Mounts a manifest under a name, in an empty roster by the mount number 0.
fn mount<R: Abort + Wait>(
    rt: &R,
    alloc: Global,
    cache: &Shared,
    pass: &mut Worker,
    source: &mut Source,
    roster: &mut Roster<SampleArchive>,
    name: &[u8],
    manifest: &[u8],
) -> Result<(), AllocError>
    requires idle { IsIdle cache.now pass.old }
    requires shares { 2 ≤ pass.old.view.shares }
    ensures idle { IsIdle cache.now pass.new }
    ensures shares { pass.new.view.shares ≡ pass.old.view.shares }
{
    let name = Name::read(alloc, name)?;
    let manifest = Name::read(alloc, manifest)?;
    let (Some(name), Some(manifest)) = (name, manifest) else {
        panic!(rt; "no name");
    };
    let share = cache.split(pass);
    let mut door = TableDoor::new(rt, cache, share);
    let reply = mount_line(alloc, &mut door, source, roster, &name, &manifest);
    cache.join(pass, door.into_pass());
    assert!(rt; matches!(reply, Reply::Mounted { .. }));
    Ok(())
}

/// Whether none of the lines is a `mount`.
fn has_no_mount(block: &[Line]) -> bool
    ensures { IsTrue result → NoMounts block.now }
{
    match block {
        [] => true,
        [first, rest @ ..] => {
            !matches!(first.command, Command::Mount { .. }) && has_no_mount(rest)
        }
    }
}

/// Runs a block by two workers, at the time 0. The texts of its replies, each ended by a newline.
fn run_by_two<R: Abort + Threads + Wait + Sync>(
    rt: &R,
    alloc: Global,
    cache: &Shared,
    pass: &mut Worker,
    config: &Config,
    block: &[Line],
    roster: &Roster<SampleArchive>,
    sources: &mut Vec<Source>,
) -> Result<Text, AllocError>
    requires idle { IsIdle cache.now pass.old }
    requires shares { 3 ≤ pass.old.view.shares }
    requires setting { (cache.now.about.config ≡ config.now) × IsConfig config.now }
    ensures idle { IsIdle cache.now pass.new }
    ensures shares { pass.new.view.shares ≡ pass.old.view.shares }
{
    assert!(rt; sources.len() >= 2 && has_no_mount(block));
    let replies = run_block(
        rt, alloc, cache, pass, config, block, roster, sources, 2, &OpenGate, 0,
    )?;
    assert!(rt; replies.len() == block.len());
    let mut text = Text::new(alloc);
    for reply in &replies {
        text.extend(reply.text(alloc)?.as_bytes())?;
        text.extend(b"\n")?;
    }
    Ok(text)
}

/// The one block of a script.
fn block_of<'a>(rt: &impl Abort, script: &'a Script) -> &'a [Line] {
    assert!(rt; script.blocks_len() == 1);
    script.block(0)
}

fn read_script(rt: &impl Abort, alloc: Global, text: &[u8]) -> Script {
    let Ok(script) = Script::read(alloc, text) else {
        panic!(rt; "no script");
    };
    script
}

/// Takes all shares but three out of a pass that has all 64.
fn take_shares(cache: &Shared, pass: &mut Worker) -> Worker
    requires idle { IsIdle cache.now pass.old }
    requires whole { pass.old.view.shares ≡ 64 }
    ensures idle { IsIdle cache.now pass.new × IsIdle cache.now result }
    ensures shares { (pass.new.view.shares ≡ 3) × (result.view.shares ≡ 61) }
{
    let mut others = cache.split(pass);
    for _taken in 0..60u32 {
        let share = cache.split(pass);
        cache.join(&mut others, share);
    }
    others
}

/// A block that three shares are enough for: line k, from 0, is run on source k mod 2, and the third source gives
/// nothing.
#[test]
fn block_of_three_shares(rt: HostRuntime) -> Result<(), Fail> {
    let alloc = rt.alloc();
    let config = config_of(Cache::Four);
    let (cache, mut pass) = open(alloc, &config)?;
    let others = take_shares(&cache, &mut pass);
    let mut sources = sample_sources(alloc, 3)?;
    assert!(rt; sources.len() == 3);
    let mut roster = Roster::new(alloc);
    mount(
        &rt,
        alloc,
        &cache,
        &mut pass,
        &mut sources[0],
        &mut roster,
        b"y",
        b"mount-y",
    )?;
    let script = read_script(
        &rt,
        alloc,
        b"read y big.bin 0 4\nread y big.bin 4096 4\nread y big.bin 8192 4\n",
    );
    let block = block_of(&rt, &script);
    let text = run_by_two(
        &rt,
        alloc,
        &cache,
        &mut pass,
        &config,
        block,
        &roster,
        &mut sources,
    )?;
    assert!(rt;
        text.as_bytes() == b"bytes 4 00010203\nbytes 4 50515253\nbytes 4 a0a1a2a3\n".as_slice()
    );
    assert!(rt; sources.len() == 3 && sources[2].reads().is_empty());
    assert!(rt; sources[0].reads() == [(8, 0, 93), (2, 0, 4096), (2, 8192, 1808)].as_slice());
    assert!(rt; sources[1].reads() == [(2, 4096, 4096)].as_slice());
    assert_eq!(rt; pass.shares(), 3);
    cache.join(&mut pass, others);
    cache.close(pass);
    Ok(())
}

/// A pass without all shares has not unmounted what its lines find gone: another one has.
#[test]
fn unmounted_by_another_pass(rt: HostRuntime) -> Result<(), Fail> {
    let alloc = rt.alloc();
    let config = config_of(Cache::Four);
    let (cache, mut pass) = open(alloc, &config)?;
    let other = cache.split(&mut pass);
    let mut sources = sample_sources(alloc, 2)?;
    assert!(rt; sources.len() == 2);
    let mut roster = Roster::new(alloc);
    mount(
        &rt,
        alloc,
        &cache,
        &mut pass,
        &mut sources[0],
        &mut roster,
        b"z",
        b"mount-z",
    )?;
    let mut door = TableDoor::new(&rt, &cache, other);
    door.unmount(0, 3);
    let other = door.into_pass();
    let script = read_script(
        &rt,
        alloc,
        b"search z 10 {\"bool\":{}}\ndecay\nfetch z _0 0\n",
    );
    let block = block_of(&rt, &script);
    let text = run_by_two(
        &rt,
        alloc,
        &cache,
        &mut pass,
        &config,
        block,
        &roster,
        &mut sources,
    )?;
    assert!(rt; text.as_bytes() == b"gone\ndecayed\ngone\n".as_slice());
    assert!(rt; pass.has_seen_gone(0) && !pass.has_unmounted(0));
    cache.join(&mut pass, other);
    assert!(rt; pass.has_unmounted(0));
    cache.close(pass);
    Ok(())
}

/// Lines that ask for no mount, among them one of `stats`, and no lines.
#[test]
fn stats_and_no_lines(rt: HostRuntime) -> Result<(), Fail> {
    let alloc = rt.alloc();
    let config = config_of(Cache::Two);
    let (cache, mut pass) = open(alloc, &config)?;
    let mut sources = sample_sources(alloc, 2)?;
    let roster = Roster::new(alloc);
    let mut block = Vec::new(alloc);
    for (number, command) in [
        (1, Command::Decay),
        (2, Command::Stats),
        (3, Command::Decay),
    ] {
        block.push(Line { number, command })?;
    }
    let text = run_by_two(
        &rt,
        alloc,
        &cache,
        &mut pass,
        &config,
        &block,
        &roster,
        &mut sources,
    )?;
    assert!(rt; text.as_bytes() == b"decayed\nrefused stats\ndecayed\n".as_slice());
    let text = run_by_two(
        &rt,
        alloc,
        &cache,
        &mut pass,
        &config,
        &[],
        &roster,
        &mut sources,
    )?;
    assert!(rt; text.as_bytes() == b"".as_slice());
    cache.close(pass);
    Ok(())
}

/// How many reads of the two sources gave a byte.
fn reads(rt: &impl Abort, sources: &[Source]) -> (usize, usize) {
    assert!(rt; sources.len() == 2);
    (sources[0].reads().len(), sources[1].reads().len())
}

/// A search and a fetch of files in different regions, and the same block again, which takes nothing more.
#[test]
fn bytes_taken_once(rt: HostRuntime) -> Result<(), Fail> {
    let alloc = rt.alloc();
    let config = config_of(Cache::Four);
    let (cache, mut pass) = open(alloc, &config)?;
    let mut sources = sample_sources(alloc, 2)?;
    assert!(rt; sources.len() == 2);
    let mut roster = Roster::new(alloc);
    mount(
        &rt,
        alloc,
        &cache,
        &mut pass,
        &mut sources[0],
        &mut roster,
        b"z",
        b"mount-z",
    )?;
    assert!(rt; reads(&rt, &sources) == (1, 0));
    let script = read_script(
        &rt,
        alloc,
        b"search z 10 {\"bool\":{\"must_not\":{\"term\":{\"body\":\"red\"}}}}\nfetch z _0 0\n",
    );
    let block = block_of(&rt, &script);
    let wanted = b"hits 1 _0/2\nfields 1 dGl0bGU=:string:cmVkIGZveA==\n";
    let text = run_by_two(
        &rt,
        alloc,
        &cache,
        &mut pass,
        &config,
        block,
        &roster,
        &mut sources,
    )?;
    assert!(rt; text.as_bytes() == wanted.as_slice());
    let taken = reads(&rt, &sources);
    let text = run_by_two(
        &rt,
        alloc,
        &cache,
        &mut pass,
        &config,
        block,
        &roster,
        &mut sources,
    )?;
    assert!(rt; text.as_bytes() == wanted.as_slice() && reads(&rt, &sources) == taken);
    cache.close(pass);
    Ok(())
}
