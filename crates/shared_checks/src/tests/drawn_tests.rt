// Drawn scripts by eight workers, beside one.
ghost use Rattle.std.specs.Prelude.{◌<◌};

use super::{Cache, config_of, frames, run_at, sample_source, sample_sources, times};
use cache_door::Core;
use cache_frame::MemFrame;
use cache_outside::{MemClock, MemSink};
use mount_script::Script;
use sample_archive::SampleArchive;
use script_run::{Ended, run_alone};
use shared_run::OpenGate;
use std::alloc::{AllocError, Global};
use std::mem;
use std::process::Abort;
use std::sync::Wait;
use std::test::Fail;
use std::thread::Threads;

/// A small linear generator.
#[derive(Drop)]
struct Draws {
    state: u64,
}

impl Draws {
    /// A number below this one.
    fn below(&mut self, end: u64) -> u64
        requires { 0 < end }
        ensures { result < end }
    {
        self.state = self
            .state
            .wrapping_mul(6_364_136_223_846_793_005)
            .wrapping_add(1_442_695_040_888_963_407);
        (self.state >> 33) % end
    }
}

/// A mount of the drawn scripts: `y` has the file of 10,000 bytes, `z` the one segment.
#[derive(Clone, Copy, PartialEq, Eq)]
pub enum Mount {
    Y,
    Z,
}

impl Mount {
    fn drawn(draws: &mut Draws) -> Mount {
        if draws.below(2) == 0 {
            Mount::Y
        } else {
            Mount::Z
        }
    }

    /// The line that unmounts it.
    fn unmount(self) -> &'static str {
        match self {
            Mount::Y => "unmount y\n",
            Mount::Z => "unmount z\n",
        }
    }
}

const MOUNTS: &str = "mount y mount-y\nmount z mount-z\n";

/// A reply of the run by several workers: which reply of the run by one is the plain one of its line, and whether it
/// may be `gone`.
#[derive(Clone, Copy)]
pub struct Place {
    alone: usize,
    gone: bool,
}

/// A script for several workers; the same one for one worker, in which each `unmount` stands at the end of its block;
/// and the places of the replies.
#[derive(Drop)]
pub struct Drawn {
    shared: String,
    alone: String,
    places: Vec<Place>,
}

/// A line, and the mount whose files it reads.
fn drawn_line(alloc: Global, draws: &mut Draws) -> Result<(String, Option<Mount>), AllocError> {
    let line = match draws.below(12) {
        0 => (format!(in alloc; "decay\n")?, None),
        1 => (format!(in alloc; "clear y\n")?, None),
        2 => (format!(in alloc; "clear z\n")?, None),
        3 => (
            format!(in alloc; "search z 10 {{\"term\":{{\"body\":\"fox\"}}}}\n")?,
            Some(Mount::Z),
        ),
        4 => (
            format!(in alloc;
                "search z 9 {{\"bool\":{{\"must_not\":{{\"term\":{{\"body\":\"red\"}}}}}}}}\n"
            )?,
            Some(Mount::Z),
        ),
        5 => {
            let doc = draws.below(4);
            (format!(in alloc; "fetch z _0 {doc}\n")?, Some(Mount::Z))
        }
        6 => {
            let at = draws.below(173);
            (format!(in alloc; "read z _0.pst {at} 4\n")?, Some(Mount::Z))
        }
        _ => {
            let at = draws.below(10_001);
            let len = draws.below(64);
            (
                format!(in alloc; "read y big.bin {at} {len}\n")?,
                Some(Mount::Y),
            )
        }
    };
    Ok(line)
}

impl Drawn {
    fn new(alloc: Global) -> Drawn {
        Drawn {
            shared: String::new(alloc),
            alone: String::new(alloc),
            places: Vec::new(alloc),
        }
    }

    /// Puts lines behind both scripts.
    fn push(&mut self, text: &str) -> Result<(), AllocError> {
        self.shared.push_str(text)?;
        self.alone.push_str(text)
    }

    /// Mounts both, each line in a block of its own.
    fn mounts(&mut self) -> Result<(), AllocError> {
        self.push(MOUNTS)?;
        for _ in 0..2 {
            let alone = self.places.len();
            self.places.push(Place { alone, gone: false })?;
        }
        Ok(())
    }

    /// Puts a drawn block of 8 to 23 lines behind the others, and in it an `unmount` of this mount.
    fn block(
        &mut self,
        alloc: Global,
        draws: &mut Draws,
        unmounted: Option<Mount>,
    ) -> Result<(), AllocError> {
        let first = self.places.len();
        let count = 8 + draws.below(16) as usize;
        let at = draws.below(8) as usize;
        for k in 0..count {
            if let Some(mount) = unmounted
                && k == at
            {
                self.shared.push_str(mount.unmount())?;
                let alone = first.saturating_add(count);
                self.places.push(Place { alone, gone: false })?;
            }
            let (line, reads) = drawn_line(alloc, draws)?;
            self.push(line.as_str())?;
            let alone = first.saturating_add(k);
            let gone = reads.is_some() && reads == unmounted;
            self.places.push(Place { alone, gone })?;
        }
        if let Some(mount) = unmounted {
            self.alone.push_str(mount.unmount())?;
        }
        self.push("--\n")
    }
}

/// A script of the mounts and six blocks, some with an `unmount`, and mounts between them.
fn drawn_script(alloc: Global, draws: &mut Draws) -> Result<Drawn, AllocError> {
    let mut drawn = Drawn::new(alloc);
    drawn.mounts()?;
    for _ in 0..6 {
        let mount = Mount::drawn(draws);
        let unmounted = (draws.below(2) == 0).then_some(mount);
        drawn.block(alloc, draws, unmounted)?;
        if draws.below(2) == 0 {
            drawn.mounts()?;
        }
    }
    Ok(drawn)
}

/// The replies of a text, without the numbers of their lines.
fn replies(alloc: Global, text: &[u8]) -> Result<Vec<Vec<u8>>, AllocError> {
    let mut replies = Vec::new(alloc);
    let mut reply = Vec::new(alloc);
    let mut begun = false;
    for byte in text {
        match *byte {
            b'\n' => {
                replies.push(mem::replace(&mut reply, Vec::new(alloc)))?;
                begun = false;
            }
            b' ' if !begun => begun = true,
            other if begun => reply.push(other)?,
            _ => {}
        }
    }
    Ok(replies)
}

/// Runs a script by one worker, through a new cache.
fn run_by_one(
    rt: &impl Abort,
    alloc: Global,
    text: &[u8],
    cache: Cache,
    sink: &mut MemSink,
) -> Result<Ended, AllocError> {
    let Ok(script) = Script::read(alloc, text) else {
        panic!(rt; "no script");
    };
    let config = config_of(cache);
    let frames = frames(alloc, &config)?;
    let mut core = Core::<SampleArchive, MemFrame>::new(alloc, &config, frames, 1)?;
    let mut source = sample_source(alloc, 0, Vec::new(alloc))?;
    let mut clock = MemClock::new(times(alloc)?);
    Ok(run_alone(
        alloc,
        &script,
        &mut core,
        &config,
        &mut source,
        sink,
        &mut clock,
    ))
}

/// Each reply is the plain one, or `gone` beside an `unmount` of a name that was mounted. Whether one is `gone`.
fn compare(rt: &impl Abort, places: &[Place], shared: &[Vec<u8>], alone: &[Vec<u8>]) -> bool {
    assert!(rt; shared.len() == places.len() && alone.len() == places.len());
    let mut marked = false;
    for k in 0..places.len() {
        let place = places[k];
        assert!(rt; place.alone < alone.len());
        let reply = shared[k].as_slice();
        let plain = alone[place.alone].as_slice();
        if reply == b"gone".as_slice() {
            assert!(rt; place.gone && plain != b"not mounted".as_slice());
            marked = true;
        } else {
            assert!(rt; reply == plain);
        }
    }
    marked
}

fn run_drawn<R: Abort + Threads + Wait + Sync>(
    rt: &R,
    alloc: Global,
    drawn: Drawn,
) -> Result<(), AllocError> {
    let mut sources = sample_sources(alloc, 8)?;
    let mut shared = MemSink::new(alloc, 65_536, Vec::new(alloc));
    let ended = run_at(
        rt,
        alloc,
        drawn.shared.as_bytes(),
        Cache::Two,
        &mut sources,
        8,
        &OpenGate,
        &mut shared,
        times(alloc)?,
    )?;
    let mut alone = MemSink::new(alloc, 65_536, Vec::new(alloc));
    let plain = run_by_one(rt, alloc, drawn.alone.as_bytes(), Cache::Two, &mut alone)?;
    assert!(rt; plain == Ended::Done { marked: false });
    let marked = compare(
        rt,
        &drawn.places,
        &replies(alloc, shared.written())?,
        &replies(alloc, alone.written())?,
    );
    assert!(rt; ended == Ended::Done { marked });
    Ok(())
}

#[test]
fn drawn_scripts(rt: HostRuntime) -> Result<(), Fail> {
    let alloc = rt.alloc();
    let mut draws = Draws { state: 1 };
    for _ in 0..40 {
        let drawn = drawn_script(alloc, &mut draws)?;
        run_drawn(&rt, alloc, drawn)?;
    }
    Ok(())
}
