ghost use Rattle.edit_session.specs.Exchange.{
  ExchangesBars,
  ExchangesVoice,
  ExchangesVoices,
  HasCountWithLost,
  HasEvenCount,
  HasPlace,
  HasPlaceForVoice,
  HasShortWayBack,
  IsBarCount,
  IsCheapTable,
  IsNextBar,
  IsNoMoreThanCame,
  IsPushed,
  IsSwapped,
  RisesForBars,
  RisesForLost,
  RisesForVoice,
  RisesForVoices,
  tables_of_bars,
  tables_below,
};
ghost use Rattle.chain_bars.specs.Products.{RisesOnce};
ghost use Rattle.rhythm_base.specs.declared.limits.TheConstants.{MOST_BARS};
ghost use Rattle.std.specs.Prelude.{
  ◌≡◌,
  ◌+◌,
  ◌*◌,
  ◌-◌,
  ◌≤◌,
  ◌<◌,
  ◌^◌,
  ◌++◌,
  ℕ,
  [],
  ◌∷◌,
  All,
  Contains,
  IfNone,
  IfSome,
  List,
  drop,
  length,
  max,
  reverse,
  slice_set,
  take,
  vec_capacity,
};

use crate::prepared::CellTable;
use crate::voice_tables::VoiceTables;
use carry_matrix::Steps;
use rhythm_base::Tag;

/// The tables that have gone out for others, and memory for as many as have come in.
#[derive(Drop)]
pub struct Exchanged {
    pub tables: Vec<CellTable>,
    pub place: Vec<CellTable>,
}

/// The bar of the last of the tables, where it is one of this voice, from one bar up to another.
fn next_bar(coming: &[CellTable], channel: u8, first: usize, bars: usize) -> Option<usize>
    ensures some { IfSome result (IsNextBar coming.now channel first bars) }
    ensures none { IfNone result ((bar : ℕ) → IsNextBar coming.now channel first bars bar → ⊥) }
{
    match coming.last() {
        None => None,
        Some(table) => {
            let bar = table.bar as usize;
            if table.channel == channel && first <= bar && bar < bars {
                Some(bar)
            } else {
                None
            }
        }
    }
}

/// Puts a table into its voice: in the place of another, which goes out, or after the last one.
fn place_table<P: Tag>(
    voice: &mut VoiceTables,
    coming: CellTable,
    gone: &mut Vec<CellTable>,
    products: &mut Steps<P>,
)
    requires few { coming.bar < MOST_BARS }
    requires room { coming.bar < voice.old.room }
    requires cheap { IsCheapTable coming }
    requires memory { coming.bar < length voice.old.tables → length gone.old.items < vec_capacity gone.old }
    ensures swapped { IsSwapped voice.old voice.new coming gone.old gone.new }
    ensures pushed { IsPushed voice.old voice.new coming gone.old gone.new }
    ensures room { voice.new.room ≡ voice.old.room }
    ensures capacity { vec_capacity gone.new ≡ vec_capacity gone.old }
    ensures products { RisesOnce (length voice.new.tables) products.old products.new }
{
    let bar = coming.bar as usize;
    if bar < voice.tables().len() {
        let table = voice.swap(bar, coming.table, products);
        gone.push_reserved(CellTable {
            channel: coming.channel,
            bar: coming.bar,
            table,
        });
    } else {
        voice.push_within(coming.table, products);
    }
}

/// Takes in the tables of the first bars of a voice, the last one of `coming` first, as long as their bars rise.
fn exchange_bars<P: Tag>(
    voice: &mut VoiceTables,
    channel: u8,
    bars: usize,
    coming: &mut Vec<CellTable>,
    gone: &mut Vec<CellTable>,
    products: &mut Steps<P>,
)
    requires few { bars ≤ MOST_BARS }
    requires room { bars ≤ voice.old.room }
    requires cheap { All IsCheapTable coming.old.items }
    requires memory { length gone.old.items + tables_below (length voice.old.tables) coming.old.items ≤ vec_capacity gone.old }
    ensures exchanged { ExchangesBars channel bars voice.old voice.new coming.old coming.new gone.old gone.new }
    ensures no_fewer { length voice.old.tables ≤ length voice.new.tables }
    ensures no_more { length voice.new.tables ≤ max (length voice.old.tables) bars }
    ensures room { voice.new.room ≡ voice.old.room }
    ensures cheap { All IsCheapTable coming.new.items }
    ensures count { HasEvenCount (length voice.old.tables) coming.old coming.new gone.old gone.new }
    ensures capacity { vec_capacity gone.new ≡ vec_capacity gone.old }
    ensures capacity_coming { vec_capacity coming.new ≡ vec_capacity coming.old }
    ensures products { RisesForBars bars voice.old coming.old coming.new products.old products.new }
    ensures less { length coming.new.items ≤ length coming.old.items }
{
    let mut first = 0;
    'tables: while let Some(bar) = next_bar(coming.as_slice(), channel, first, bars) {
        let next = coming.take_last();
        place_table(voice, next, gone, products);
        first = bar + 1;
    }
}

/// Takes the tables after so many bars off a voice, the last one first.
fn pop_lost<P: Tag>(
    voice: &mut VoiceTables,
    channel: u8,
    bars: usize,
    gone: &mut Vec<CellTable>,
    products: &mut Steps<P>,
)
    requires some { 1 ≤ bars }
    requires few { length voice.old.tables ≤ MOST_BARS }
    requires memory { length gone.old.items + (length voice.old.tables - bars) ≤ vec_capacity gone.old }
    ensures tables { voice.new.tables ≡ take bars voice.old.tables }
    ensures gone { gone.new.items ≡ gone.old.items ++ reverse (tables_of_bars channel bars (drop bars voice.old.tables)) }
    ensures room { voice.new.room ≡ voice.old.room }
    ensures capacity { vec_capacity gone.new ≡ vec_capacity gone.old }
    ensures products { RisesForLost bars voice.old products.old products.new }
{
    'lost: while voice.tables().len() > bars {
        let table = voice.pop(products);
        gone.push_reserved(CellTable {
            channel,
            bar: voice.tables().len() as u32,
            table,
        });
    }
}

/// Turns the order of the tables from a place on.
fn reverse_from(tables: &mut [CellTable], start: usize)
    requires { start ≤ length tables.old }
    ensures { tables.new ≡ take start tables.old ++ reverse (drop start tables.old) }
{
    let (_front, back) = tables.split_at_mut(start);
    back.reverse();
}

/// Takes the tables after so many bars off a voice.
fn give_lost<P: Tag>(
    voice: &mut VoiceTables,
    channel: u8,
    bars: usize,
    gone: &mut Vec<CellTable>,
    products: &mut Steps<P>,
)
    requires some { 1 ≤ bars }
    requires few { length voice.old.tables ≤ MOST_BARS }
    requires memory { length gone.old.items + (length voice.old.tables - bars) ≤ vec_capacity gone.old }
    ensures tables { voice.new.tables ≡ take bars voice.old.tables }
    ensures gone { gone.new.items ≡ gone.old.items ++ tables_of_bars channel bars (drop bars voice.old.tables) }
    ensures room { voice.new.room ≡ voice.old.room }
    ensures capacity { vec_capacity gone.new ≡ vec_capacity gone.old }
    ensures products { RisesForLost bars voice.old products.old products.new }
{
    let start = gone.len();
    pop_lost(voice, channel, bars, gone, products);
    reverse_from(gone.as_mut_slice(), start);
}

/// Exchanges the tables of a voice, which has so many bars afterwards.
fn exchange_voice<P: Tag>(
    voice: &mut VoiceTables,
    channel: u8,
    bars: usize,
    coming: &mut Vec<CellTable>,
    gone: &mut Vec<CellTable>,
    products: &mut Steps<P>,
)
    requires bars { IsBarCount bars }
    requires few_before { length voice.old.tables ≤ MOST_BARS }
    requires room { bars ≤ voice.old.room }
    requires cheap { All IsCheapTable coming.old.items }
    requires memory { HasPlaceForVoice bars voice.old coming.old gone.old }
    ensures exchanged { ExchangesVoice channel bars voice.old voice.new coming.old coming.new gone.old gone.new }
    ensures room { voice.new.room ≡ voice.old.room }
    ensures cheap { All IsCheapTable coming.new.items }
    ensures count { HasCountWithLost bars voice.old coming.old coming.new gone.old gone.new }
    ensures capacity { vec_capacity gone.new ≡ vec_capacity gone.old }
    ensures capacity_coming { vec_capacity coming.new ≡ vec_capacity coming.old }
    ensures products { RisesForVoice bars voice.old coming.old coming.new products.old products.new }
    ensures less { length coming.new.items ≤ length coming.old.items }
{
    exchange_bars(voice, channel, bars, coming, gone, products);
    give_lost(voice, channel, bars, gone, products);
}

/// Exchanges the tables of all voices, one voice after another.
fn exchange_voices<P: Tag>(
    voices: &mut [VoiceTables],
    channels: &[u8],
    bars: usize,
    coming: &mut Vec<CellTable>,
    gone: &mut Vec<CellTable>,
    products: &mut Steps<P>,
)
    requires bars { IsBarCount bars }
    requires channels { length voices.old ≡ length channels.now }
    requires room { All (λ v. bars ≤ v.room) voices.old }
    requires cheap { All IsCheapTable coming.old.items }
    requires none { gone.old.items ≡ [] }
    requires memory { HasPlace voices.old bars coming.old.items (vec_capacity gone.old) }
    ensures exchanged { ExchangesVoices channels.now bars voices.old voices.new (reverse coming.old.items)
        gone.new.items (length coming.old.items) }
    ensures voices { length voices.new ≡ length voices.old }
    ensures room { (n : ℕ) → All (λ v. n ≤ v.room) voices.old → All (λ v. n ≤ v.room) voices.new }
    ensures count { IsNoMoreThanCame bars voices.old coming.old.items gone.new.items }
    ensures products { RisesForVoices bars voices.old coming.old.items products.old products.new }
    ensures capacity { vec_capacity coming.new ≡ vec_capacity coming.old }
{
    'voices: for number in 0..voices.len() {
        let channel = channels[number];
        exchange_voice(&mut voices[number], channel, bars, coming, gone, products);
    }
}

/// Puts the tables of the reached cells in, by voice and bar, and takes out those that they replace and those after so many
/// bars. `place` has memory for all that go out.
pub fn exchange<P: Tag>(
    voices: &mut [VoiceTables],
    channels: &[u8],
    bars: usize,
    tables: Vec<CellTable>,
    place: Vec<CellTable>,
    products: &mut Steps<P>,
) -> Exchanged
    requires bars { IsBarCount bars }
    requires channels { length voices.old ≡ length channels.now }
    requires room { All (λ v. bars ≤ v.room) voices.old }
    requires cheap { All IsCheapTable tables.items }
    requires none { place.items ≡ [] }
    requires memory { HasPlace voices.old bars tables.items (vec_capacity place) }
    ensures exchanged { ExchangesVoices channels.now bars voices.old voices.new tables.items
        result.tables.items (vec_capacity result.place) }
    ensures voices { length voices.new ≡ length voices.old }
    ensures room { (n : ℕ) → All (λ v. n ≤ v.room) voices.old → All (λ v. n ≤ v.room) voices.new }
    ensures none { result.place.items ≡ [] }
    ensures way_back { HasShortWayBack channels.now bars voices.old tables.items result.tables.items }
    ensures products { RisesForVoices bars voices.old tables.items products.old products.new }
{
    let mut coming = tables;
    let mut gone = place;
    coming.reverse();
    exchange_voices(voices, channels, bars, &mut coming, &mut gone, products);
    coming.clear();
    Exchanged {
        tables: gone,
        place: coming,
    }
}
