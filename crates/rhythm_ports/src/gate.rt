/// What a worker passes before it builds a cell, so that a test can hold the worker there.
pub trait Gate {
    /// Called once with the number of each cell: by the worker that searches it, or by the calling thread if it takes over a table.
    fn pass(&self, index: u64);
}

/// A gate that holds no worker.
#[derive(Clone, Copy, Debug, Default)]
pub struct OpenGate;

impl Gate for OpenGate {
    fn pass(&self, _index: u64) {}
}
