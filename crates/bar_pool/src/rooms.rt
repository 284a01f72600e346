ghost use Rattle.std.specs.Prelude.{◌≤◌, IfOk, length};

use least_rows::Room;
use std::alloc::{AllocError, Global};

/// The rooms of the workers, kept from call to call.
#[derive(Drop)]
pub struct Rooms {
    rooms: Vec<Room>,
}

impl Rooms {
    /// No rooms yet.
    pub fn new(alloc: Global) -> Rooms {
        Rooms {
            rooms: Vec::new(alloc),
        }
    }

    /// The rooms, with new ones where there are fewer than workers.
    pub fn for_workers(&mut self, alloc: Global, workers: usize) -> Result<&mut [Room], AllocError>
        ensures { IfOk result (λ rooms. workers ≤ length rooms.now) }
    {
        'rooms: while self.rooms.len() < workers {
            self.rooms.push(Room::new(alloc))?;
        }
        Ok(self.rooms.as_mut_slice())
    }
}
