ghost use Rattle.rhythm_base.specs.Barlines.{barline};
ghost use Rattle.rhythm_base.specs.Grammar.{root_of};
ghost use Rattle.rhythm_base.specs.Pins.{pin_of};
ghost use Rattle.std.specs.Prelude.{◌≡◌, ◌+◌, ◌<◌, length, option_map};

use rhythm_base::{Bar, Grammar, Pin, Shape};

/// The root symbol of a signature.
pub fn root_of(grammar: &Grammar, num: u8, den: u8) -> Option<u8>
    ensures { result ≡ root_of grammar.now.starts num den }
{
    let start = grammar
        .starts
        .iter()
        .find(|start| start.num == num && start.den == den)?;
    Some(start.symbol)
}

/// The pin of a bar of a voice.
pub fn pin_of(pins: &[Pin], channel: u8, bar: usize) -> Option<&Shape>
    ensures { option_map (λ s. s.now) result ≡ pin_of pins.now channel bar }
{
    let pin = pins
        .iter()
        .find(|pin| pin.channel == channel && pin.bar as usize == bar)?;
    Some(&pin.shape)
}

/// The barline after the bar of that number: the start of the next bar, or the last barline.
pub fn barline_after(bars: &[Bar], last: u64, number: usize) -> u64
    requires { number < length bars.now }
    ensures { result ≡ barline bars.now last (number + 1) }
{
    if number + 1 < bars.len() {
        bars[number + 1].start
    } else {
        last
    }
}
