// `mount_tool FOLDER CACHE WORDS..`: runs scripts of mounts, searches, fetches and reads over an archive whose blobs
// are the files of a folder. The words and what is written stand in docs/FORMATS.md.
#![tactic(auto)]

mod hit_sums;
mod laws;
mod make;
mod note;
mod program;
mod run;
mod script;
mod search;
mod shared;
mod term;

use cache_outside::{StdSink, Untold};
pub use laws::whole_run;
pub use make::make_is_whole;
use program::Handed;
pub use run::{Outcome, mount_alone, mount_tool};
pub use run_setup::asks_threads;

#[cfg(test)]
mod tests;

use std::process::ExitCode;

fn main(rt: HostRuntime) -> ExitCode {
    let Ok(own) = rt.clone() else {
        return ExitCode::from(6);
    };
    let mut sink = StdSink::new(own);
    let arguments = match program::start(&rt, &mut sink) {
        Ok(arguments) => arguments,
        Err(status) => return ExitCode::from(status),
    };
    let handed = match program::prepare(&rt, &arguments, &mut sink) {
        Ok(handed) => handed,
        Err(status) => return ExitCode::from(status),
    };
    let Handed {
        mut script,
        sources,
        mut frames,
        mut clock,
    } = handed;
    program::keep_memory(rt.alloc());
    let outcome = mount_tool::<_, Untold, _, _, _, _, _>(
        &rt,
        rt.alloc(),
        &arguments[2..],
        &mut script,
        sources,
        &mut frames,
        &mut sink,
        &mut clock,
    );
    ExitCode::from(outcome.status)
}
