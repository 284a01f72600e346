ghost use Rattle.std.specs.Prelude.{◌≡◌, ◌<◌, ◌+◌, ◌*◌, All, IfOk, IfSome, length};
ghost use Rattle.note_list.specs.Ends.{ends_from, note_from};
ghost use Rattle.note_list.specs.Pairing.{IsPlayable};

use rhythm_base::{Event, Note, What};
use std::alloc::{AllocError, Global};
use std::marker::Model;

/// For each channel and key the tick of the next event that ends a note there, or the last tick of the file.
#[derive(Drop)]
pub struct Ends {
    ticks: Vec<u64>,
}

impl Model for Ends {
    ghost use Rattle.std.specs.Prelude.{◌≡◌, ℕ, List, length};

    ghost Value = { List ℕ };

    ghost view = { λ e. e.ticks.items };

    ghost invariant = { λ e. length e.ticks.items ≡ 2048 };
}

/// Where the entry of this channel and key stands in a table of them.
pub fn place_of(channel: u8, key: u8) -> usize
    ensures { result ≡ 128 * channel + key }
{
    128 * usize::from(channel) + usize::from(key)
}

impl Ends {
    /// After the last event every note ends with the file.
    pub fn new(alloc: Global, last: u64) -> Result<Ends, AllocError>
        ensures long { IfOk result (λ e. length e ≡ 2048) }
        ensures last { IfOk result (All (λ t. t ≡ last)) }
    {
        Ok(Ends {
            ticks: vec![in alloc; last; 2048]?,
        })
    }

    /// The note that begins with the event, by the next ends after it. From now on they are those from the event on.
    pub fn take(&mut self, event: Event) -> Option<Note>
        requires { IsPlayable event.what }
        ensures note { result ≡ note_from self.old event.tick event.what }
        ensures ends { self.new ≡ ends_from self.old event.tick event.what }
        ensures channel { IfSome result (λ n. n.channel < 16) }
        ensures key { IfSome result (λ n. n.key < 128) }
    {
        match event.what {
            What::On { channel, key } => {
                let place = place_of(channel, key);
                let end = self.ticks[place];
                self.ticks[place] = event.tick;
                Some(Note {
                    channel,
                    key,
                    onset: event.tick,
                    end,
                })
            }
            What::Off { channel, key } => {
                self.ticks[place_of(channel, key)] = event.tick;
                None
            }
            _ => None,
        }
    }
}
