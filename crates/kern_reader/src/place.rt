ghost use Rattle.kern_reader.specs.Events as definitions;
ghost use Rattle.kern_reader.specs.Tokens.{IsWellSignature};
ghost use Rattle.durations.specs.Spans.{IsFrac};
ghost use Rattle.std.specs.Prelude.{◌≡◌, ◌≤◌};

use durations::{Length, lowest};
use rhythm_base::Frac;
use text_words::TimeSignature;

/// So many of `whole` equal parts of a whole note, as a number of whole notes.
pub(crate) fn frac(parts: u64, whole: u64) -> Frac
    requires { 1 ≤ whole }
    ensures { IsFrac parts whole result }
{
    let length = lowest(Length { parts, whole });
    Frac {
        num: length.parts,
        den: length.whole,
    }
}

/// The length of a bar, in 64 parts of a whole note.
pub(crate) fn bar_parts(signature: TimeSignature) -> u64
    requires { IsWellSignature signature }
    ensures parts { result ≡ definitions.bar_parts signature }
    ensures few { result ≤ 4096 }
{
    u64::from(signature.num) * (64 / u64::from(signature.den))
}
