/// What came of copying the bytes that a ticket waits for.
#[derive(Clone, Copy, Debug, PartialEq, Eq)]
pub enum Taken {
    /// They were all present, and are copied.
    Copied,
    /// Some are not there yet, and somebody fetches them.
    Waiting,
    /// Some are absent, since a gap failed that the ticket waited for.
    Failed,
    /// They are present, and the frame did not give them.
    FrameFault,
}
