ghost use Rattle.edit_laws.specs.Edits.{performance_after};
ghost use Rattle.performance_edit.specs.Changed.{with_pin};
ghost use Rattle.performance_edit.specs.OnlyPlaces.{IsPlaceAmong};
ghost use Rattle.rhythm_base.specs.Lists.{AreInOrder, earlier, list_with};
ghost use Rattle.rhythm_base.specs.Performance.{place_of_pin};
ghost use Rattle.rhythm_base.specs.Pins.{without_pin};
ghost use Rattle.std.specs.Arc.{arc_slice_items};
ghost use Rattle.std.specs.Prelude.{◌≡◌, IfOk, OnOk, filter, nat_lt};

use rhythm_base::{Edit, Performance, Pin, Shape};
use std::alloc::{AllocError, Global};
use std::sync::ArcSlice;

/// The pin stands before the other one.
fn is_before(pin: &Pin, other: &Pin) -> bool
    ensures { result ≡ earlier (place_of_pin pin.now) (place_of_pin other.now) }
{
    (pin.channel, pin.bar) < (other.channel, other.bar)
}

/// How many pins stand before one.
fn count_before(pins: &[Pin], pin: &Pin) -> usize
    requires { AreInOrder place_of_pin pins.now }
    ensures { IsPlaceAmong (λ other. earlier (place_of_pin other) (place_of_pin pin.now)) pins.now result }
{
    pins.partition_point(|other| is_before(other, pin))
}

/// Puts one more pin among others, at its place.
fn put(pins: &mut Vec<Pin>, pin: Pin) -> Result<(), AllocError>
    requires { AreInOrder place_of_pin pins.old.items }
    ensures { OnOk result (pins.new.items ≡ list_with place_of_pin pin pins.old.items) }
{
    let place = count_before(pins.as_slice(), &pin);
    pins.insert(place, pin)?;
    Ok(())
}

/// Equal pins.
fn copied_pins(alloc: Global, pins: &[Pin]) -> Result<Vec<Pin>, AllocError>
    ensures { IfOk result (λ v. v.items ≡ pins.now) }
{
    let mut copies = Vec::with_capacity(alloc, pins.len())?;
    for pin in pins {
        copies.push(Pin {
            channel: pin.channel,
            bar: pin.bar,
            shape: pin.shape.copy(alloc)?,
        })?;
    }
    Ok(copies)
}

/// The pins without that of this bar of this voice.
fn without_pin(alloc: Global, pins: &[Pin], channel: u8, bar: u32) -> Result<Vec<Pin>, AllocError>
    ensures { IfOk result (λ v. v.items ≡ without_pin channel bar pins.now) }
{
    let mut others = copied_pins(alloc, pins)?;
    others.retain(|pin| !(pin.channel == channel && pin.bar == bar));
    Ok(others)
}

/// The pins with this one in place of an older one.
fn with_pin(
    alloc: Global,
    pins: &[Pin],
    channel: u8,
    bar: u32,
    shape: &Shape,
) -> Result<Vec<Pin>, AllocError>
    requires { AreInOrder place_of_pin pins.now }
    ensures { IfOk result (λ v. v.items ≡ with_pin channel bar shape.now pins.now) }
{
    let mut others = without_pin(alloc, pins, channel, bar)?;
    let shape = shape.copy(alloc)?;
    put(
        &mut others,
        Pin {
            channel,
            bar,
            shape,
        },
    )?;
    Ok(others)
}

/// The pins of the first so many bars.
fn first_pins(alloc: Global, pins: &[Pin], bars: usize) -> Result<Vec<Pin>, AllocError>
    ensures { IfOk result (λ v. v.items ≡ filter (λ q. nat_lt q.bar bars) pins.now) }
{
    let mut first = copied_pins(alloc, pins)?;
    first.retain(|pin| (pin.bar as usize) < bars);
    Ok(first)
}

/// The pins after an edit.
pub fn pins_after(
    alloc: Global,
    performance: &Performance,
    edit: &Edit,
) -> Result<ArcSlice<Pin>, AllocError>
    ensures { IfOk result (λ v. arc_slice_items v ≡ (performance_after performance.now edit.now).pins) }
{
    let bars = performance.bars().len();
    let pins = performance.pins();
    match edit {
        Edit::Pin {
            channel,
            bar,
            shape,
        } => ArcSlice::from_vec(with_pin(alloc, pins, *channel, *bar, shape)?),
        Edit::Unpin { channel, bar } => {
            ArcSlice::from_vec(without_pin(alloc, pins, *channel, *bar)?)
        }
        Edit::DropBar => ArcSlice::from_vec(first_pins(alloc, pins, bars - 1)?),
        Edit::Add { .. }
        | Edit::Drop { .. }
        | Edit::Move { .. }
        | Edit::Barline { .. }
        | Edit::AddBar => performance.shared_pins(),
    }
}
