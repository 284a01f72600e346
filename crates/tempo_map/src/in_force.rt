ghost use Rattle.std.specs.Prelude.{◌≡◌, map, option_map};
ghost use Rattle.std.specs.List.Sorted.{IsNonDecreasing};
ghost use Rattle.rhythm_base.specs.Time.{in_force};
ghost use Rattle.tempo_map.specs.TempoMap.{AreUpTo};

use rhythm_base::{KeyMark, Signature, Tempo};

/// How many changes of tempo are at or before a tick.
pub fn tempos_up_to(tempos: &[Tempo], tick: u64) -> usize
    requires { IsNonDecreasing (map (λ t. t.tick) tempos.now) }
    ensures { AreUpTo (λ t. t.tick) tempos.now tick result }
{
    tempos.partition_point(|tempo| tempo.tick <= tick)
}

/// The last change of tempo at or before a tick.
pub fn tempo_in_force(tempos: &[Tempo], tick: u64) -> Option<&Tempo>
    requires { IsNonDecreasing (map (λ t. t.tick) tempos.now) }
    ensures { option_map (λ t. t.now) result ≡ in_force (λ t. t.tick) tempos.now tick }
{
    tempos[..tempos_up_to(tempos, tick)].last()
}

/// The last change of key at or before a tick.
pub fn key_in_force(key_marks: &[KeyMark], tick: u64) -> Option<&KeyMark>
    requires { IsNonDecreasing (map (λ k. k.tick) key_marks.now) }
    ensures { option_map (λ k. k.now) result ≡ in_force (λ k. k.tick) key_marks.now tick }
{
    let count = key_marks.partition_point(|mark| mark.tick <= tick);
    key_marks[..count].last()
}

/// The last change of signature at or before a tick.
pub fn signature_in_force(signatures: &[Signature], tick: u64) -> Option<&Signature>
    requires { IsNonDecreasing (map (λ s. s.tick) signatures.now) }
    ensures { option_map (λ s. s.now) result ≡ in_force (λ s. s.tick) signatures.now tick }
{
    let count = signatures.partition_point(|signature| signature.tick <= tick);
    signatures[..count].last()
}
