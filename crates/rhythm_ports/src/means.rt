use crate::gate::Gate;
use std::alloc::Global;
use std::thread::Threads;

/// By what tables are built.
#[derive(Drop)]
pub struct Means<'a, R: Threads + Sync, G: Gate + Sync> {
    /// What starts threads.
    pub rt: &'a R,
    /// Where memory is taken.
    pub alloc: Global,
    /// What a worker passes before it builds a table.
    pub gate: &'a G,
}
