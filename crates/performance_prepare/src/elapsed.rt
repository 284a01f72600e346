ghost use Rattle.performance_prepare.specs.Elapsed as elapsed;
ghost use Rattle.std.specs.Prelude.{◌≡◌};

use tempo_map::TempoMap;

/// So many milliseconds, in microseconds times the division, as elapsed time is counted.
pub fn milliseconds(division: u16, count: u8) -> u64
    ensures { result ≡ elapsed.milliseconds division count }
{
    u64::from(count) * 1_000 * u64::from(division)
}

/// The time from a tick to another, none where that is not later.
pub fn time_between(map: &TempoMap, from: u64, to: u64) -> u64
    requires { elapsed.AreInFile from to }
    ensures { result ≡ elapsed.time_between map.now.tempos from to }
{
    map.time(to).saturating_sub(map.time(from))
}
