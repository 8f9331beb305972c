// The top call: what the words ask for, done with what it is handed.
ghost use Rattle.std.specs.Prelude.{◌≡◌, length, map, drop, true, false};
ghost use Rattle.run_setup.specs.Words.{texts, command, asks};
ghost use Rattle.mount_tool.specs.Calls.{IsCall, world, is_refused, readers};
ghost use Rattle.mount_tool.specs.Replies.{usage_text};
ghost use Rattle.mount_tool.specs.Runs.{IsNoted};

use crate::make::{run_make, share_make};
use crate::note::note;
use crate::script::run_script;
use crate::shared::share_script;
use crate::term::run_term;
use cache_outside::{Archive, BlobSource, Clock, FrameMaker, Sink, TextSource};
use cache_table::{BetweenSteps, SharedCache, kept_between};
use run_setup::{Asked, asked_of, asks_threads};
use std::alloc::Global;
use std::sync::Wait;
use std::thread::Threads;

/// What is written where the words are not in form.
const USAGE: &str = "usage\n";

/// How a run ended: the program's status, and the sources that were handed in, in their order.
#[derive(Drop)]
pub struct Outcome<S> {
    pub status: u8,
    pub sources: Vec<S>,
}

/// Does what the words say with the first source.
fn answer<
    A: Archive + Send + Sync + Drop,
    S: BlobSource<A> + Send + Drop,
    T: TextSource,
    K: Sink,
    C: Clock,
    M: FrameMaker,
>(
    alloc: Global,
    words: &[String],
    script: &mut T,
    mut sources: Vec<S>,
    frames: &mut M,
    sink: &mut K,
    clock: &mut C,
) -> Outcome<S>
where
    M::F: Send + Drop,
    requires { asks (command (texts words.now)) ≡ false }
    ensures call { IsCall A.tells A.blobs (texts words.now)
        (world (T.view script.old) (M.view frames.old) (K.view sink.old) (C.view clock.old) (map S.view sources.items))
        (world (T.view script.new) (M.view frames.new) (K.view sink.new) (C.view clock.new)
        (map S.view result.sources.items))
        result.status }

    // The sources come back in number and order, and only the first one was read.
    ensures sources { map (λ s. (S.view s).identity) result.sources.items
        ≡ map (λ s. (S.view s).identity) sources.items }
    ensures others { drop 1 result.sources.items ≡ drop 1 sources.items }
{
    let Some(asked) = asked_of(words) else {
        let status = note(sink, USAGE, 2);
        return Outcome { status, sources };
    };
    if let Asked::Make(settings) = asked {
        let status = run_make::<K, C, M>(alloc, &settings, frames, sink, clock);
        return Outcome { status, sources };
    }
    if sources.is_empty() {
        let status = note(sink, USAGE, 2);
        return Outcome { status, sources };
    }
    let source = &mut sources[0];
    let status = match asked {
        Asked::Term {
            manifest,
            field,
            term,
        } => run_term::<A, S, K>(alloc, source, manifest, field, term, sink),
        Asked::Run(settings) => run_script::<A, S, T, K, C, M>(
            alloc, &settings, script, source, frames, sink, clock,
        ),
        Asked::Make(_) => unreachable!(),
    };
    Outcome { status, sources }
}

/// Writes that the words are refused; the sources are not touched.
fn refuse_words<K: Sink, S: Drop>(sink: &mut K, sources: Vec<S>) -> Outcome<S>
    ensures status { IsNoted (K.view sink.old) (K.view sink.new) usage_text 2 result.status }
    ensures sources { result.sources.items ≡ sources.items }
{
    let status = note(sink, USAGE, 2);
    Outcome { status, sources }
}

/// Does what words say that ask for several workers.
fn answer_shared<
    Rt: Threads + Wait + Sync,
    A: Archive + Send + Sync + Drop,
    S: BlobSource<A> + Send + Drop,
    T: TextSource,
    K: Sink,
    C: Clock,
    M: FrameMaker,
>(
    rt: &Rt,
    alloc: Global,
    words: &[String],
    script: &mut T,
    mut sources: Vec<S>,
    frames: &mut M,
    sink: &mut K,
    clock: &mut C,
) -> Outcome<S>
where
    M::F: Send + Drop,
    requires { asks (command (texts words.now)) ≡ true }
    ensures call { IsCall A.tells A.blobs (texts words.now)
        (world (T.view script.old) (M.view frames.old) (K.view sink.old) (C.view clock.old) (map S.view sources.items))
        (world (T.view script.new) (M.view frames.new) (K.view sink.new) (C.view clock.new)
        (map S.view result.sources.items))
        result.status }
    ensures sources { map (λ s. (S.view s).identity) result.sources.items
        ≡ map (λ s. (S.view s).identity) sources.items }
    ensures others { drop (readers (command (texts words.now))) result.sources.items
        ≡ drop (readers (command (texts words.now))) sources.items }
{
    let Some(asked) = asked_of(words) else {
        return refuse_words(sink, sources);
    };
    if let Asked::Make(settings) = asked {
        let status = share_make::<Rt, K, C, M>(rt, alloc, &settings, frames, sink, clock);
        return Outcome { status, sources };
    }
    let Asked::Run(settings) = asked else {
        unreachable!()
    };
    if settings.workers as usize > sources.len() {
        return refuse_words(sink, sources);
    }
    let status = share_script::<Rt, A, S, T, K, C, M>(
        rt,
        alloc,
        &settings,
        script,
        &mut sources,
        frames,
        sink,
        clock,
    );
    Outcome { status, sources }
}

/// Does what the words say by one worker, which never waits: `mount_tool` for words that ask for no threads.
pub fn mount_alone<
    A: Archive + Send + Sync + Drop,
    S: BlobSource<A> + Send + Drop,
    T: TextSource,
    K: Sink,
    C: Clock,
    M: FrameMaker,
>(
    alloc: Global,
    words: &[String],
    script: &mut T,
    sources: Vec<S>,
    frames: &mut M,
    sink: &mut K,
    clock: &mut C,
) -> Outcome<S>
where
    M::F: Send + Drop,
    requires { asks (command (texts words.now)) ≡ false }
    ensures call { IsCall A.tells A.blobs (texts words.now)
        (world (T.view script.old) (M.view frames.old) (K.view sink.old) (C.view clock.old) (map S.view sources.items))
        (world (T.view script.new) (M.view frames.new) (K.view sink.new) (C.view clock.new)
        (map S.view result.sources.items))
        result.status }
    ensures usage { result.status ≡ 2 → is_refused (texts words.now) (length sources.items) ≡ true }

    // The sources come back in number and order, and only the first one was read.
    ensures sources { map (λ s. (S.view s).identity) result.sources.items
        ≡ map (λ s. (S.view s).identity) sources.items }
    ensures others { drop 1 result.sources.items ≡ drop 1 sources.items }
{
    answer::<A, S, T, K, C, M>(alloc, words, script, sources, frames, sink, clock)
}

/// Does what the words say with what it is handed, and gives the status: the top call of the program.
///
/// The words are those of `run_setup`: `term MANIFEST FIELD TERM`, read from the first source without a cache, or `run`
/// and its settings, which runs the script that is read, one worker over each of the first sources; or `make`, its
/// number and its settings, which runs over sources of its own. The statuses, in order of precedence:
///
/// - 2 exactly where the words are not in form, or ask for more workers than there are sources; `usage` is written.
/// - 4 only where the source of the script's text failed; nothing is written.
/// - 3 exactly where the text, read to its end or to its 1,048,577th byte, is no script; `line N` or `too long` is
///   written.
/// - 7 only where the maker of frames failed; nothing is written.
/// - 5 only where the sink failed in the run; a front of the text of the replies is written.
/// - 6 for want of memory, also of a line; a front of the text, or all of it, is written.
/// - 1 exactly where a line was `fault` or `gone` and none of the above; for `term` where its reply is neither hits nor
///   `no memory`.
/// - 0 otherwise; the text of the replies is written whole.
///
/// Of `usage`, `line N` and `too long` a front alone is written only where the sink failed; where it wanted memory the
/// status is 6.
pub fn mount_tool<
    Rt: Threads + Wait + Sync,
    A: Archive + Send + Sync + Drop,
    S: BlobSource<A> + Send + Drop,
    T: TextSource,
    K: Sink,
    C: Clock,
    M: FrameMaker,
>(
    rt: &Rt,
    alloc: Global,
    words: &[String],
    script: &mut T,
    sources: Vec<S>,
    frames: &mut M,
    sink: &mut K,
    clock: &mut C,
) -> Outcome<S>
where
    M::F: Send + Drop,
    ensures call { IsCall A.tells A.blobs (texts words.now)
        (world (T.view script.old) (M.view frames.old) (K.view sink.old) (C.view clock.old) (map S.view sources.items))
        (world (T.view script.new) (M.view frames.new) (K.view sink.new) (C.view clock.new)
        (map S.view result.sources.items))
        result.status }
    ensures usage { result.status ≡ 2 → is_refused (texts words.now) (length sources.items) ≡ true }

    // The sources come back in number and order, and only those of the workers were read.
    ensures sources { map (λ s. (S.view s).identity) result.sources.items
        ≡ map (λ s. (S.view s).identity) sources.items }
    ensures others { drop (readers (command (texts words.now))) result.sources.items
        ≡ drop (readers (command (texts words.now))) sources.items }

    // Between any two steps of several workers, while nobody has the turn of the cache that they share: each region is
    // free, leaving, or mapped to one key in the list of its frequency; no region that is held has been given another
    // key; each byte that is marked as present is the archive's.
    ensures kept { ⟦<SharedCache<A, M::F> as BetweenSteps>⟧.kept }
{
    kept_between::<A, M::F>();
    if asks_threads(words) {
        return answer_shared::<Rt, A, S, T, K, C, M>(
            rt, alloc, words, script, sources, frames, sink, clock,
        );
    }
    mount_alone::<A, S, T, K, C, M>(alloc, words, script, sources, frames, sink, clock)
}
