ghost use Rattle.edit_session.specs.ChangedVoices as voices;
ghost use Rattle.edit_session.specs.ChangedVoices.{MayChange};
ghost use Rattle.std.specs.Prelude.{◌≡◌, ◌↔◌, IsTrue};

use rhythm_base::Edit;

/// The channel of the one voice whose notes or pins an edit changes; none where it changes bars, which are those of all voices.
pub fn changed_channel(edit: &Edit) -> Option<u8>
    ensures { result ≡ voices.changed_channel edit.now }
{
    match edit {
        Edit::Add { channel, .. } => Some(*channel),
        Edit::Drop { channel, .. } => Some(*channel),
        Edit::Move { channel, .. } => Some(*channel),
        Edit::Pin { channel, .. } => Some(*channel),
        Edit::Unpin { channel, .. } => Some(*channel),
        Edit::Barline { .. } | Edit::AddBar | Edit::DropBar => None,
    }
}

/// The voice of the channel may be another one than before.
pub fn may_change(changed: Option<u8>, channel: u8) -> bool
    ensures { IsTrue result ↔ MayChange changed channel }
{
    match changed {
        None => true,
        Some(one) => channel == one,
    }
}
