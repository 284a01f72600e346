ghost use Rattle.bar_cut.specs.Cuts.{AreBarsAndChords, inputs};
ghost use Rattle.barline_follow.specs.NextBars.{IsNextBar};
ghost use Rattle.barline_follow.specs.PassedOver.{IsLonger, cells_in};
ghost use Rattle.barline_follow.specs.Sounded.{AreSounded};
ghost use Rattle.rhythm_base.specs.BarInput as inputs_of_bars;
ghost use Rattle.rhythm_base.specs.Cells.{input};
ghost use Rattle.rhythm_base.specs.Grammar.{Grammar};
ghost use Rattle.rhythm_base.specs.Leaves.{VoiceBar, soundings};
ghost use Rattle.rhythm_base.specs.Readable.{IsInRange};
ghost use Rattle.rhythm_base.specs.Signatures.{IsSignature};
ghost use Rattle.rhythm_base.specs.Voices.{voice_bar};
ghost use Rattle.rhythm_base.specs.declared.limits.TheConstants.{LATEST_TICK};
ghost use Rattle.std.specs.Prelude.{◌≡◌, ◌≤◌, ◌<◌, ◌++◌, List, [], ◌∷◌, IfOk, OnOk, length};

use crate::costs::asked_after;
use crate::longer::Longer;
use crate::next_bar::NextBar;
use bar_cut::sections;
use bar_pool::AskedCell;
use rhythm_base::{Bar, BarInput, Chord, Grammar, Pin};
use std::alloc::{AllocError, Global};

/// The chords from the last one before a tick on. A bar that begins there depends on no other.
fn chords_near(voice: &[Chord], start: u64) -> &[Chord]
    requires { AreSounded voice.now }
    ensures sounded { AreSounded result.now }
    ensures near { (grammar : Grammar) (bar : VoiceBar) → bar.start ≡ start
        → input grammar bar (soundings result.now) ≡ input grammar bar (soundings voice.now) }
{
    let before = voice.partition_point(|chord| chord.onset < start);
    let (_earlier, near) = voice.split_at(before.saturating_sub(1));
    near
}

/// The input of the last of these bars.
fn last_input(
    alloc: Global,
    grammar: &Grammar,
    voice: &[Chord],
    bars: &[Bar],
    end: u64,
    pins: &[Pin],
) -> Result<BarInput, AllocError>
    requires voice { AreBarsAndChords bars.now end voice.now }
    requires grammar { IsInRange grammar.now }
    ensures { IfOk result (λ k. (others : List inputs_of_bars.BarInput) × (inputs grammar.now pins.now 0 end bars.now voice.now ≡ others ++ k ∷ [])) }
{
    match sections(alloc, voice, bars, end, grammar, pins, 0) {
        Err(_fault) => Err(AllocError),
        Ok(mut sections) => match sections.pop() {
            None => Err(AllocError),
            Some(section) => section.input(alloc),
        },
    }
}

/// The input of a bar of a voice that runs to `end`.
fn cell_input(
    alloc: Global,
    grammar: &Grammar,
    voice: &[Chord],
    bar: Bar,
    end: u64,
) -> Result<BarInput, AllocError>
    requires sounded { AreSounded voice.now }
    requires grammar { IsInRange grammar.now }
    requires signature { IsSignature bar.num bar.den }
    requires some_tick { bar.start < end }
    requires few_ticks { end ≤ LATEST_TICK }
    ensures { IfOk result (λ k. k ≡ input grammar.now (voice_bar grammar.now [] 0 0 bar end) (soundings voice.now)) }
{
    if bar.start == 0 {
        last_input(alloc, grammar, voice, &[bar], end, &[])
    } else {
        let earlier = Bar { start: 0, ..bar };
        let near = chords_near(voice, bar.start);
        last_input(alloc, grammar, near, &[earlier, bar], end, &[])
    }
}

/// Appends the cell of a list's bar in a voice, with what is asked of it, if the list is not passed over.
pub fn push_cell(
    alloc: Global,
    next: &NextBar,
    voice: usize,
    list: &Longer<'_>,
    cells: &mut Vec<AskedCell>,
) -> Result<(), AllocError>
    requires next { IsNextBar next.now }
    requires list { IsLonger next.now list.now }
    requires voice { voice < length next.now.voices.now }
    ensures { OnOk result (cells.new.items ≡ cells.old.items ++ cells_in next.now voice list.now) }
{
    if list.is_out() {
        return Ok(());
    }
    let course = list.course();
    let start = course.barring().end();
    let end = start + list.offer().ticks;
    let bar = Bar { start, ..next.like };
    let heads = course.heads();
    let chords = next.voices[voice].chords();
    let input = cell_input(alloc, next.grammar, chords, bar, end)?;
    let asked = asked_after(&heads[voice]);
    cells.push(AskedCell { input, asked })?;
    Ok(())
}
