ghost use Rattle.kern_reader.specs.EventText as definitions;
ghost use Rattle.kern_reader.specs.EventText.{event_text, events_text, frac_text, keys_text, kind_text};
ghost use Rattle.std.specs.Prelude.{◌≡◌, ◌++◌, OnOk};

use rhythm_base::{Frac, Keys, Span};
use score_words::{RisingKeys, push_number};
use std::alloc::AllocError;
use voice_events::KernEvent;

/// Appends a fraction.
fn push_frac(text: &mut Vec<u8>, frac: Frac) -> Result<(), AllocError>
    ensures { OnOk result (text.new.items ≡ text.old.items ++ frac_text frac) }
{
    push_number(text, frac.num)?;
    text.extend_from_slice(b"/")?;
    push_number(text, frac.den)
}

/// Appends a key, after a comma where it is not the first.
fn push_key(text: &mut Vec<u8>, first: bool, key: u8) -> Result<(), AllocError>
    ensures { OnOk result (text.new.items ≡ text.old.items ++ definitions.event_key first key) }
{
    if !first {
        text.extend_from_slice(b",")?;
    }
    push_number(text, u64::from(key))
}

/// Appends the keys of a chord.
fn push_keys(text: &mut Vec<u8>, keys: Keys) -> Result<(), AllocError>
    ensures { OnOk result (text.new.items ≡ text.old.items ++ keys_text keys) }
{
    let mut left = RisingKeys::of(keys);
    let mut first = true;
    'keys: while let Some(key) = left.next() {
        push_key(text, first, key)?;
        first = false;
    }
    Ok(())
}

/// Appends the grace chords of an event.
fn push_graces(text: &mut Vec<u8>, graces: &[Keys]) -> Result<(), AllocError>
    ensures { OnOk result (text.new.items ≡ text.old.items ++ definitions.graces_text graces.now) }
{
    'graces: for keys in graces {
        text.extend_from_slice(b" q")?;
        push_keys(text, *keys)?;
    }
    Ok(())
}

/// Appends the kind of an event.
fn push_kind(text: &mut Vec<u8>, short: bool) -> Result<(), AllocError>
    ensures { OnOk result (text.new.items ≡ text.old.items ++ kind_text short) }
{
    if short {
        text.extend_from_slice(b"short")
    } else {
        text.extend_from_slice(b"note")
    }
}

/// Appends the spine of an event, its start and its length.
fn push_place(text: &mut Vec<u8>, event: &KernEvent) -> Result<(), AllocError>
    ensures { OnOk result (text.new.items ≡ text.old.items ++ definitions.place_text event.now) }
{
    push_number(text, u64::from(event.spine))?;
    text.extend_from_slice(b" ")?;
    push_frac(text, event.span.start)?;
    text.extend_from_slice(b" ")?;
    push_frac(text, event.span.len)
}

/// Appends the kind and the keys of a span.
fn push_sound(text: &mut Vec<u8>, span: &Span) -> Result<(), AllocError>
    ensures { OnOk result (text.new.items ≡ text.old.items ++ definitions.sound_text span.now) }
{
    text.extend_from_slice(b" ")?;
    push_kind(text, span.short)?;
    text.extend_from_slice(b" ")?;
    push_keys(text, span.keys)
}

/// Appends the line of an event.
fn push_event(text: &mut Vec<u8>, event: &KernEvent) -> Result<(), AllocError>
    ensures { OnOk result (text.new.items ≡ text.old.items ++ event_text event.now) }
{
    push_place(text, event)?;
    push_sound(text, &event.span)?;
    push_graces(text, event.span.graces.as_slice())?;
    text.extend_from_slice(b"\n")
}

/// Appends the lines of events.
pub(crate) fn push_lines(text: &mut Vec<u8>, events: &[KernEvent]) -> Result<(), AllocError>
    ensures { OnOk result (text.new.items ≡ text.old.items ++ events_text events.now) }
{
    'events: for event in events {
        push_event(text, event)?;
    }
    Ok(())
}
