ghost use Rattle.musicxml_writer.specs.Elements.{empty_element};
ghost use Rattle.musicxml_writer.specs.Values as definitions;
ghost use Rattle.musicxml_writer.specs.Values.{ratio_text, value_text};
ghost use Rattle.rhythm_base.specs.declared.limits.TheConstants.{MOST_UNITS};
ghost use Rattle.std.specs.List.{repeat};
ghost use Rattle.score_words.specs.Writing.{Writes};
ghost use Rattle.std.specs.Prelude.{◌≡◌, ◌≤◌, codes};

use crate::elements::{close, open, push_count, push_empty, push_words};
use durations::{Recip, Value};
use notation::Ratio;
use std::alloc::AllocError;

/// The type of a value without its dots. A 1024th is the shortest.
fn type_text(recip: Recip) -> &'static str
    ensures { result.now ≡ definitions.type_text recip }
{
    match recip {
        Recip::Long => "long",
        Recip::Breve => "breve",
        Recip::Of(1) => "whole",
        Recip::Of(2) => "half",
        Recip::Of(4) => "quarter",
        Recip::Of(8) => "eighth",
        Recip::Of(16) => "16th",
        Recip::Of(32) => "32nd",
        Recip::Of(64) => "64th",
        Recip::Of(128) => "128th",
        Recip::Of(256) => "256th",
        Recip::Of(512) => "512th",
        Recip::Of(_) => "1024th",
    }
}

/// How many are in the time of the bracket's normal notes, where what is shorter than a 1024th is written as one.
fn finer(actual: u64, recip: Recip) -> u64
    requires { actual ≤ MOST_UNITS }
    ensures { result ≡ definitions.finer actual recip }
{
    match recip {
        Recip::Of(number) if number > 1024 => actual * u64::from(number / 1024),
        _ => actual,
    }
}

/// Appends so many dots.
fn push_dots(text: &mut Vec<u8>, dots: u8) -> Result<(), AllocError>
    ensures { Writes (repeat dots (empty_element (codes "dot"))) text.old result text.new }
{
    'dots: for _ in 0..dots {
        push_empty(text, "dot")?;
    }
    Ok(())
}

/// Appends the ratio of so many in the time of so many, where it is one.
#[tactic(auto, unfolding(crate::specs::Elements::element, crate::specs::Values::ratio_text))]
fn push_ratio(text: &mut Vec<u8>, actual: u64, normal: u64) -> Result<(), AllocError>
    ensures { Writes (ratio_text actual normal) text.old result text.new }
{
    if actual > 1 {
        open(text, "time-modification")?;
        push_count(text, "actual-notes", actual)?;
        push_count(text, "normal-notes", normal)?;
        close(text, "time-modification")?;
    }
    Ok(())
}

/// Appends the type of a value, its dots and its ratio.
#[tactic(auto, unfolding(crate::specs::Values::value_text))]
pub(crate) fn push_value(text: &mut Vec<u8>, ratio: Ratio, value: Value) -> Result<(), AllocError>
    requires { ratio.actual ≤ MOST_UNITS }
    ensures { Writes (value_text ratio value) text.old result text.new }
{
    push_words(text, "type", type_text(value.recip))?;
    push_dots(text, value.dots)?;
    push_ratio(text, finer(ratio.actual, value.recip), ratio.normal)
}
