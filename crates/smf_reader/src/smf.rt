ghost use Rattle.std.specs.Prelude.{◌≡◌, ◌-◌, ◌^◌, IfOk, length, map, min};
ghost use Rattle.std.specs.List.{flat_map};
ghost use Rattle.rhythm_base.specs.Events.{IsMerged};
ghost use Rattle.rhythm_base.specs.Lists.{greatest};

use rhythm_base::Event;
use std::alloc::{AllocError, Global};
use std::marker::Model;

/// A track of a file.
#[derive(Drop)]
pub struct Track {
    /// The begins and ends of notes and the changes of tempo, signature and key, in the order of the file.
    pub events: Vec<Event>,
    /// The tick of the last event of any kind, 0 without one.
    pub last: u64,
}

impl Model for Track {
    ghost use Rattle.smf_reader.specs.Played.{Track};

    ghost Value = { Track };

    ghost view = { λ t. record { events = t.events.items; last = t.last } };
}

/// What a Standard MIDI File says.
#[derive(Drop)]
pub struct Smf {
    /// Ticks of a quarter note, 1 to 32,767.
    pub division: u16,
    /// The tracks in the order of the file.
    pub tracks: Vec<Track>,
}

impl Model for Smf {
    ghost use Rattle.smf_reader.specs.Played.{Smf};

    ghost Value = { Smf };

    ghost view = { λ s. record { division = s.division; tracks = s.tracks.items } };
}

impl Smf {
    /// How many events the tracks have together, or the greatest `usize` where that is more.
    fn event_count(&self) -> usize
        ensures { result ≡ min (length (flat_map (λ t. t.events) self.now.tracks)) (2 ^ 64 - 1) }
    {
        let mut count: usize = 0;
        for track in &self.tracks {
            count = count.saturating_add(track.events.len());
        }
        count
    }

    /// The events of all tracks, track after track.
    fn events(&self, alloc: Global) -> Result<Vec<Event>, AllocError>
        ensures { IfOk result (λ v. v.items ≡ flat_map (λ t. t.events) self.now.tracks) }
    {
        let mut events = Vec::with_capacity(alloc, self.event_count())?;
        for track in &self.tracks {
            events.extend_from_slice(track.events.as_slice())?;
        }
        Ok(events)
    }

    /// The events of all tracks in one list: by tick, at one tick by track, and in a track by place.
    pub fn merged(&self, alloc: Global) -> Result<Vec<Event>, AllocError>
        ensures { IfOk result (λ v. IsMerged (map (λ t. t.events) self.now.tracks) v.items) }
    {
        let mut events = self.events(alloc)?;
        events.sort_by_key(|event| event.tick)?;
        Ok(events)
    }

    /// The greatest tick of any event, a skipped one too, and 0 without tracks.
    pub fn last(&self) -> u64
        ensures { result ≡ greatest (map (λ t. t.last) self.now.tracks) }
    {
        let mut last = 0;
        for track in &self.tracks {
            last = last.max(track.last);
        }
        last
    }
}
