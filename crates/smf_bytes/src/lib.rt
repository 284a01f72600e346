//! Standard MIDI Files as they are written, byte after byte: quantities, messages, the contents of tracks, and chunks. What a
//! file says is made elsewhere; here it gets its bytes.
#![tactic(auto)]

mod chunk;
mod laws;
mod message;
mod quantity;
mod track;

pub use chunk::{push_header, push_track};
pub use laws::quantities_are_shortest;
pub use message::push_event;
pub use quantity::{GREATEST_QUANTITY, Quantity};
pub use track::{push_end, track_content};
