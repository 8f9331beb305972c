//! The law of a call over which nothing fails.

ghost use Rattle.mount_tool.specs.Complete.{Completeness};

/// A call with words of `run` and a text that is a script, where no count of failures rose (of the text's source, of
/// the source of each worker, of the maker of frames and of the sink), and where no block reads files of a mount that
/// it unmounts: the status is 0, and the text of the replies that whole files give was written whole; or it is 6, for
/// want of memory. Failures of frames do not matter.
pub fn whole_run()
    ensures { Completeness }
{}
