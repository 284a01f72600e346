ghost use Rattle.note_list.specs.Pairing.{IsPlayed};
ghost use Rattle.performance_prepare.specs.Ends as held;
ghost use Rattle.performance_prepare.specs.Elapsed.{AreInFile};
ghost use Rattle.performance_prepare.specs.Ends.{AreEnds};
ghost use Rattle.performance_prepare.specs.Groups as groups;
ghost use Rattle.performance_prepare.specs.Middle.{numbers_from};
ghost use Rattle.performance_prepare.specs.Parted.{AreRaised, CostMore, CostUpTo, near, parted_cost};
ghost use Rattle.rhythm_base.specs.Lists.{gap};
ghost use Rattle.rhythm_base.specs.declared.limits.TheConstants.{LATEST_EVENT, MOST_NOTES};
ghost use Rattle.rhythm_base.specs.declared.note.Note.{Note};
ghost use Rattle.std.specs.Prelude.{◌≡◌, ◌≤◌, ◌<◌, ◌-◌, ◌*◌, ◌++◌, All, IfOk, List, length, map};

use crate::elapsed::{milliseconds, time_between};
use crate::parted::parting_from;
use crate::strum::strikes;
use hand_borders::BORDERS;
use rhythm_base::Note;
use std::alloc::{AllocError, Global};
use tempo_map::TempoMap;

/// For how many milliseconds more a note sounds past the beginning of a group where it is held.
const HELD: u8 = 60;

/// The note begins soon after another.
fn begins_near(map: &TempoMap, division: u16, within: u8, last: &Note, note: &Note) -> bool
    requires last { IsPlayed LATEST_EVENT last.now }
    requires note { IsPlayed LATEST_EVENT note.now }
    ensures { result ≡ groups.begins_near map.now.tempos division within last.now note.now }
{
    time_between(map, last.onset, note.onset) <= milliseconds(division, within)
}

/// Where the group that begins at a note ends: the place after its last note.
pub fn group_end(map: &TempoMap, division: u16, within: u8, notes: &[Note], start: usize) -> usize
    requires notes { All (IsPlayed LATEST_EVENT) notes.now }
    requires start { start < length notes.now }
    ensures group { groups.IsGroup map.now.tempos division within notes.now start result }
    ensures later { start < result }
    ensures within { result ≤ length notes.now }
{
    'notes: for end in start + 1..notes.len() {
        if !begins_near(map, division, within, &notes[end - 1], &notes[end]) {
            return end;
        }
    }
    notes.len()
}

/// How far apart two numbers are.
fn apart(a: u32, b: u32) -> u32
    ensures { result ≡ gap a b }
{
    if a < b { b - a } else { a - b }
}

/// What a key costs near a border.
fn near(border: u8, key: u8) -> u32
    ensures near { result ≡ near key border }
    ensures low { result ≤ 200 }
{
    let away = apart(2 * u32::from(key) + 1, 2 * u32::from(border));
    20 * 10u32.saturating_sub(away)
}

/// Adds to the costs of borders what a key costs near them: more than five keys away nothing.
fn add_near(costs: &mut [u32; BORDERS], key: u8)
    requires { CostUpTo 4_000_000_000 costs.old }
    ensures { CostMore (near key) costs.old costs.new }
{
    let first = key.saturating_sub(4) as usize;
    let end = (key as usize + 6).min(BORDERS);
    'borders: for border in first..end {
        costs[border] += near(border as u8, key);
    }
}

/// What a border costs by its place where these keys are struck.
fn placed(middle: u8, struck: &[u8], border: u8) -> u32
    requires { length struck.now ≤ MOST_NOTES }
    ensures cost { result ≡ length struck.now * gap border middle }
    ensures low { result ≤ 17_000_000 }
{
    struck.len() as u32 * apart(u32::from(border), u32::from(middle))
}

/// What borders cost by their places where these keys are struck.
fn places(middle: u8, struck: &[u8]) -> [u32; BORDERS]
    requires { length struck.now ≤ MOST_NOTES }
    ensures places { groups.AreCosts (λ border. length struck.now * gap border middle) result }
    ensures low { CostUpTo 17_000_000 result }
{
    let mut costs = [0u32; BORDERS];
    'borders: for border in 0..BORDERS {
        costs[border] = placed(middle, struck, border as u8);
    }
    costs
}

/// Adds so much to the costs of borders from one up to another.
fn raise(costs: &mut [u32; BORDERS], first: usize, end: usize, more: u32)
    requires room { CostUpTo (4_294_967_295 - more) costs.old }
    requires order { first ≤ end }
    ensures { AreRaised first end more costs.old costs.new }
{
    'borders: for border in first..end.min(BORDERS) {
        costs[border] += more;
    }
}

/// Adds to the costs of borders what they cost by how they part the keys of a group.
fn add_partings(costs: &mut [u32; BORDERS], struck: &[u8], held: &[u8])
    requires room { CostUpTo 17_000_000 costs.old }
    requires struck { length struck.now ≤ MOST_NOTES }
    requires held { length held.now ≤ 128 }
    ensures parted { CostMore (parted_cost struck.now held.now) costs.old costs.new }
    ensures low { CostUpTo 17_500_000 costs.new }
{
    let mut border = 0;
    'partings: while border < BORDERS {
        let parting = parting_from(struck, held, border as u8);
        let end = parting.last as usize + 1;
        raise(costs, border, end, parting.cost as u32);
        border = end;
    }
}

/// What each border costs in a group that strikes these keys where those are held.
fn row(middle: u8, struck: &[u8], held: &[u8]) -> [u32; BORDERS]
    requires few { length struck.now ≤ MOST_NOTES }
    requires held { length held.now ≤ 128 }
    ensures { result ≡ map (groups.cost middle struck.now held.now) (numbers_from 0 129) }
{
    let mut costs = places(middle, struck);
    add_partings(&mut costs, struck, held);
    for key in struck {
        add_near(&mut costs, *key);
    }
    costs
}

/// The keys of notes.
pub fn keys_of(alloc: Global, notes: &[Note]) -> Result<Vec<u8>, AllocError>
    ensures { IfOk result (λ v. v.items ≡ map (λ n. n.key) notes.now) }
{
    notes.iter().map(|note| note.key).collect(alloc)
}

/// The first onset of a group, 0 without notes.
fn first_onset(group: &[Note]) -> u64
    ensures { result ≡ groups.first_onset group.now }
{
    match group {
        [] => 0,
        [note, ..] => note.onset,
    }
}

/// The last note of a key, which ends there, sounds on past a group's beginning, and the key is not struck in the group.
fn is_held(map: &TempoMap, division: u16, onset: u64, end: u64, group: &[Note], key: u8) -> bool
    requires first { onset ≡ groups.first_onset group.now }
    requires ticks { AreInFile onset end }
    ensures { result ≡ held.holds map.now.tempos division end group.now key }
{
    if end <= onset {
        return false;
    }
    !strikes(group, key) && milliseconds(division, HELD) < time_between(map, onset, end)
}

/// The keys that are held past a group's beginning, by the ends of the last notes of the keys before.
fn held_keys(
    alloc: Global,
    map: &TempoMap,
    division: u16,
    ends: &[u64; 128],
    group: &[Note],
) -> Result<Vec<u8>, AllocError>
    requires ends { All (λ end. end ≤ LATEST_EVENT) ends.now }
    requires group { All (IsPlayed LATEST_EVENT) group.now }
    ensures keys { IfOk result (λ v. v.items ≡ held.held_by map.now.tempos division ends.now group.now) }
    ensures few { IfOk result (λ v. length v.items ≤ 128) }
{
    let onset = first_onset(group);
    let mut list = Vec::new(alloc);
    'keys: for key in 0..128u8 {
        if is_held(map, division, onset, ends[key as usize], group, key) {
            list.push(key)?;
        }
    }
    Ok(list)
}

/// Puts the ends of the notes of a group in place of those of the last notes of their keys before.
fn put_ends(ends: &mut [u64; 128], group: &[Note])
    requires ends { All (λ end. end ≤ LATEST_EVENT) ends.old }
    requires group { All (IsPlayed LATEST_EVENT) group.now }
    ensures ends { (before : List Note) → AreEnds ends.old before → AreEnds ends.new (before ++ group.now) }
    ensures low { All (λ end. end ≤ LATEST_EVENT) ends.new }
{
    for note in group {
        ends[note.key as usize] = note.end;
    }
}

/// What each border costs in each group of the notes of a channel.
pub fn costs(
    alloc: Global,
    map: &TempoMap,
    division: u16,
    within: u8,
    middle: u8,
    notes: &[Note],
) -> Result<Vec<[u32; BORDERS]>, AllocError>
    requires few { length notes.now ≤ MOST_NOTES }
    requires notes { All (IsPlayed LATEST_EVENT) notes.now }
    ensures costs { IfOk result (λ v. v.items ≡ groups.note_costs map.now.tempos division within middle notes.now) }
    ensures few { IfOk result (λ v. length v.items ≤ MOST_NOTES) }
{
    let keys = keys_of(alloc, notes)?;
    let mut rows = Vec::new(alloc);
    let mut ends = [0u64; 128];
    let mut start = 0;
    'groups: while start < notes.len() {
        let end = group_end(map, division, within, notes, start);
        let held = held_keys(alloc, map, division, &ends, &notes[start..end])?;
        rows.push(row(middle, &keys[start..end], &held))?;
        put_ends(&mut ends, &notes[start..end]);
        start = end;
    }
    Ok(rows)
}
