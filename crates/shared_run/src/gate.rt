//! Who is told of each line that was answered.

/// Is told after each line that it was answered. A test waits by it until workers overlap.
pub trait Gate {
    /// A worker has answered the line with this number, from 1, of the script.
    fn answered(&self, worker: u32, line: u32);
}

/// A gate that does nothing.
#[derive(Drop)]
pub struct OpenGate;

impl Gate for OpenGate {
    fn answered(&self, _worker: u32, _line: u32) {}
}
