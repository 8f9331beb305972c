// How a run ended.

/// How the run of a script ended.
#[derive(Clone, Copy, Debug, PartialEq, Eq)]
pub enum Ended {
    /// The script ran to its end, all of its replies were written, and none is `no memory`. `marked` says that one is
    /// `fault` or `gone`.
    Done { marked: bool },
    /// The sink failed, and its count of failures rose.
    SinkFault,
    /// Memory was wanted: by the run itself, or by a line, which was answered `no memory`.
    NoMemory,
}
