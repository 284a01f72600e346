ghost use Rattle.chain_bars.specs.Laws.{matrices};
ghost use Rattle.edit_session.specs.Exchange.{IsBarCount};
ghost use Rattle.edit_session.specs.VoiceTables.{HasPath, HasTables, IsFirstDead, IsGrown, voice_cost};
ghost use Rattle.rhythm_base.specs.Lists.{Each};
ghost use Rattle.rhythm_base.specs.Paths.{AreCheap};
ghost use Rattle.rhythm_base.specs.declared.limits.TheConstants.{DEAREST_CELL, MOST_BARS};
ghost use Rattle.std.specs.List.{flat_map};
ghost use Rattle.std.specs.Prelude.{
  ◌≡◌,
  ◌*◌,
  ◌≤◌,
  ◌<◌,
  ◌^◌,
  ◌++◌,
  All,
  IfOk,
  IfSome,
  None,
  OnOk,
  length,
  reverse,
  sum_by,
};

use crate::voice_tables::VoiceTables;
use carry_matrix::Steps;
use least_cost::BarTable;
use rhythm_base::Tag;
use std::alloc::{AllocError, Global};

/// A voice over whose tables no path leads, by its place among the voices, and the first bar over which none leads.
#[derive(Clone, Copy, Debug, PartialEq, Eq)]
pub struct DeadVoice {
    pub voice: usize,
    pub bar: u32,
}

/// Takes so many tables off the end, the last one first.
fn taken(
    alloc: Global,
    tables: &mut Vec<BarTable>,
    count: usize,
) -> Result<Vec<BarTable>, AllocError>
    requires { count ≤ length tables.old.items }
    ensures tables { IfOk result (λ v. reverse tables.old.items ≡ v.items ++ reverse tables.new.items) }
    ensures count { IfOk result (λ v. length v.items ≡ count) }
{
    let mut taken = Vec::with_capacity(alloc, count)?;
    'tables: for _number in 0..count {
        taken.push_reserved(tables.take_last());
    }
    Ok(taken)
}

/// The tables of so many voices of so many bars each, with the chain over each voice.
pub fn voices_of<P: Tag>(
    alloc: Global,
    mut tables: Vec<BarTable>,
    voices: usize,
    bars: usize,
    products: &mut Steps<P>,
) -> Result<Vec<VoiceTables>, AllocError>
    requires bars { IsBarCount bars }
    requires tables { length tables.items ≡ voices * bars }
    requires cheap { AreCheap DEAREST_CELL (matrices tables.items) }
    ensures tables { IfOk result (λ v. flat_map (λ voice. voice.tables) v.items ≡ tables.items) }
    ensures voices { IfOk result (λ v. length v.items ≡ voices) }
    ensures bars { IfOk result (λ v. All (HasTables bars) v.items) }
    ensures rises { products.old ≤ products.new }
{
    let mut kept = Vec::with_capacity(alloc, voices)?;
    tables.reverse();
    'voices: for _number in 0..voices {
        let own = taken(alloc, &mut tables, bars)?;
        kept.push(VoiceTables::new(alloc, own, products)?)?;
    }
    Ok(kept)
}

/// The first voice over whose tables no path leads.
pub fn first_dead_voice(voices: &[VoiceTables]) -> Option<DeadVoice>
    ensures none { result ≡ None → All HasPath voices.now }
    ensures dead { IfSome result (λ dead. IsFirstDead voices.now dead.voice dead.bar) }
{
    'voices: for number in 0..voices.len() {
        if let Some(bar) = voices[number].first_dead() {
            return Some(DeadVoice { voice: number, bar });
        }
    }
    None
}

/// What the least paths of the voices cost together.
pub fn total_of(voices: &[VoiceTables]) -> u64
    requires paths { All HasPath voices.now }
    requires fits { sum_by voice_cost voices.now < 2 ^ 64 }
    ensures { result ≡ sum_by voice_cost voices.now }
{
    let mut sum = 0;
    'voices: for voice in voices {
        sum += voice.total().unwrap();
    }
    sum
}

/// Takes memory for so many bars of each voice.
pub fn reserve_all(voices: &mut [VoiceTables], bars: u32) -> Result<(), AllocError>
    requires { bars ≤ MOST_BARS }
    ensures grown { Each IsGrown voices.old voices.new }
    ensures ok { OnOk result (All (λ voice. bars ≤ voice.room) voices.new) }
{
    'voices: for number in 0..voices.len() {
        voices[number].reserve(bars)?;
    }
    Ok(())
}
