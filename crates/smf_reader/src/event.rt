ghost use Rattle.rhythm_base.specs.declared.limits.TheConstants.{LATEST_EVENT};
ghost use Rattle.std.specs.Prelude.{◌≡◌, ◌<◌, ◌≤◌, IfOk, length};
ghost use Rattle.smf_reader.specs.Event.{event, tick_after};

use crate::fault::SmfFault;
use crate::meaning::Meaning;
use crate::message::{read_message, read_status, running_after};
use crate::quantity::read_quantity;
use rhythm_base::LATEST_EVENT;

/// An event, and what stands after it.
#[derive(Clone, Copy, Debug, PartialEq, Eq)]
pub(crate) struct Step {
    /// The sum of the delta times up to the event.
    pub(crate) tick: u64,
    /// What it says.
    pub(crate) meaning: Meaning,
    /// The last channel status.
    pub(crate) running: Option<u8>,
    /// The place after it.
    pub(crate) next: usize,
}

/// The tick that the delta time at this place leads to, and the place after it.
#[tactic(auto, unfolding(crate::specs::Event::tick_after))]
fn read_tick(bytes: &[u8], tick: u64, at: usize) -> Result<(u64, usize), SmfFault>
    requires place { at ≤ length bytes.now }
    requires tick { tick ≤ LATEST_EVENT }
    ensures value { result ≡ tick_after bytes.now tick at }
    ensures limit { IfOk result (λ d. d.0 ≤ LATEST_EVENT) }
    ensures later { IfOk result (λ d. at < d.1) }
{
    let (delta, place) = read_quantity(bytes, at)?;
    let tick = tick + u64::from(delta);
    if tick <= LATEST_EVENT {
        Ok((tick, place))
    } else {
        Err(SmfFault::TooLate { at: at as u64 })
    }
}

/// The event at this place, after a tick and the last channel status.
#[tactic(auto, unfolding(crate::specs::Event::event))]
pub(crate) fn read_event(
    bytes: &[u8],
    tick: u64,
    running: Option<u8>,
    at: usize,
) -> Result<Step, SmfFault>
    requires place { at ≤ length bytes.now }
    requires tick { tick ≤ LATEST_EVENT }
    ensures value { result ≡ event bytes.now tick running at }
    ensures limit { IfOk result (λ s. s.tick ≤ LATEST_EVENT) }
    ensures later { IfOk result (λ s. at < s.next) }
    ensures within { IfOk result (λ s. s.next ≤ length bytes.now) }
{
    let (tick, message) = read_tick(bytes, tick, at)?;
    let (status, after) = read_status(bytes, running, message)?;
    let (meaning, next) = read_message(bytes, message, status, after)?;
    Ok(Step {
        tick,
        meaning,
        running: running_after(status, running),
        next,
    })
}
