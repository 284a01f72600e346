//! The outside as traits: a source of bytes, a sink for bytes, a shelf of files, a gate for workers; and by what tables are built, lent as one.
//! A call fails only where its object's count of faults rises, and contracts can name that count.
//! Each trait has a form in memory, which tells its bytes and fails where it was told to, a sure
//! form, which never fails, and a real form before the system, which tells no bytes. `read_all`,
//! `read_shelf` and `write_all` move a whole input or output through them.
#![tactic(auto)]

mod calls;
mod failed;
mod gate;
mod means;
mod memory_shelf;
mod memory_sink;
mod memory_source;
mod piece_size;
mod read_end;
mod real_input;
mod real_output;
mod real_shelf;
mod retry;
mod shelf;
mod sink;
mod source;
mod stock;
mod sure_shelf;
mod sure_sink;
mod sure_source;
mod unread;

pub use failed::Failed;
pub use gate::{Gate, OpenGate};
pub use means::Means;
pub use memory_shelf::MemShelf;
pub use memory_sink::MemSink;
pub use memory_source::MemSource;
pub use read_end::ReadEnd;
pub use real_input::RealInput;
pub use real_output::RealOutput;
pub use real_shelf::RealShelf;
pub use shelf::{Shelf, read_shelf};
pub use sink::{Partial, Sink, write_all};
pub use source::{Source, read_all};
pub use sure_shelf::SureShelf;
pub use sure_sink::SureSink;
pub use sure_source::SureSource;
