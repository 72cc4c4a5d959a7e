// Part 3 of a step: the gap count and the maximum count, and the settings of the phase that they use.
#![tactic(auto, unfolding(rules::specs::Site::phase_times, rules::specs::Counts::gap_after, rules::specs::Counts::maximum_after, rules::specs::Counts::counts_after))]

ghost use Rattle.std.specs.Prelude.{◌≡◌};
ghost use Rattle.rules.specs.Site.{phase_times};
ghost use Rattle.rules.specs.Counts.{gap_after, maximum_after, counts_after};

use rules::site::{PhaseTimes, Times};
use rules::state::{Counts, Interval};

// The settings of a phase. They are all 0 for a phase number above 6.
pub fn phase_times(times: &Times, phase: u8) -> PhaseTimes
    ensures { result ≡ phase_times times.now phase }
{
    if let Some(own) = times.phases.get(usize::from(phase)) {
        return *own;
    }
    PhaseTimes {
        late: 0,
        minimum: 0,
        maximum: 0,
        gap: 0,
        yellow: 0,
        red: 0,
        early: 0,
    }
}

// The gap count after part 3. In minimum green and running it is G if a detector extends the phase; else it counts down to 0.
fn gap_after(interval: Interval, times: PhaseTimes, extended: bool, gap: u16) -> u16
    ensures { result ≡ gap_after interval times extended gap }
{
    if !base_intervals::is_green(interval) {
        gap
    } else if extended {
        times.gap
    } else {
        gap.saturating_sub(1)
    }
}

// The maximum count after part 3. In running it starts when another phase is demanded, and then counts every step up to X.
fn maximum_after(interval: Interval, times: PhaseTimes, another: bool, maximum: u16) -> u16
    ensures { result ≡ maximum_after interval times another maximum }
{
    if base_intervals::is_running(interval) && (another || 0 < maximum) {
        maximum.saturating_add(1).min(times.maximum)
    } else {
        maximum
    }
}

// Both counts after part 3, by the interval and the settings of the phase.
pub fn counts_after(
    interval: Interval,
    times: PhaseTimes,
    extended: bool,
    another: bool,
    before: Counts,
) -> Counts
    ensures { result ≡ counts_after interval times extended another before }
{
    Counts {
        gap: gap_after(interval, times, extended, before.gap),
        maximum: maximum_after(interval, times, another, before.maximum),
    }
}
