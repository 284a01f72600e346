ghost use Rattle.std.specs.Prelude.{◌≡◌, ◌≤◌};

use std::marker::Model;

/// The channel of one of the two voices of a piece: 0 or 1. A contract sees it as the number.
#[derive(Clone, Copy)]
pub(crate) struct VoiceChannel {
    channel: u8,
}

impl Model for VoiceChannel {
    ghost use Rattle.std.specs.Prelude.{ℕ, ◌≤◌};

    ghost Value = { ℕ };

    ghost view = { λ v. v.channel };

    ghost invariant = { λ v. v.channel ≤ 1 };

    ghost inverse = { λ n. record { channel = n } };
}

impl VoiceChannel {
    /// That of the first voice.
    #[inline(always)]
    pub(crate) fn first() -> VoiceChannel
        ensures { result ≡ 0 }
    {
        VoiceChannel { channel: 0 }
    }

    /// That of the second voice.
    #[inline(always)]
    pub(crate) fn second() -> VoiceChannel
        ensures { result ≡ 1 }
    {
        VoiceChannel { channel: 1 }
    }

    /// The number.
    #[inline(always)]
    pub(crate) fn number(self) -> u8
        ensures is { result ≡ self }
        ensures within { result ≤ 1 }
    {
        self.channel
    }
}
