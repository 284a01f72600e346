ghost use Rattle.rhythm_base.specs.SoundKinds as spans;
ghost use Rattle.std.specs.Prelude.{◌≡◌};

use rhythm_base::SoundKind;

/// Whether a chord begins.
pub fn begins_chord(kind: SoundKind) -> bool
    ensures { result ≡ spans.begins_chord kind }
{
    match kind {
        SoundKind::Begin | SoundKind::Short => true,
        SoundKind::Tie | SoundKind::Rest => false,
    }
}

/// Whether the chord before goes on.
pub fn is_tie(kind: SoundKind) -> bool
    ensures { result ≡ spans.is_tie kind }
{
    match kind {
        SoundKind::Tie => true,
        SoundKind::Begin | SoundKind::Short | SoundKind::Rest => false,
    }
}

/// Whether a chord begins that is marked short.
pub fn is_short(kind: SoundKind) -> bool
    ensures { result ≡ spans.is_short kind }
{
    match kind {
        SoundKind::Short => true,
        SoundKind::Begin | SoundKind::Tie | SoundKind::Rest => false,
    }
}
