// What a change of interval does to the counts and to the lock of the phase, and whether a phase starts.
ghost use Rattle.std.specs.Prelude.{◌<◌, ◌≡◌};
ghost use Rattle.rules.specs.Interval.{counts_leaving, counts_entering, counts_changed, locks_left, starts as starts_at};

use base_bytes::sets;
use rules::site::{PhaseTimes, Times};
use rules::state::{Counts, Interval, Position};

// The counts when an interval ends: both are 0 after all-red, the only interval that is leaving and before a start.
fn counts_leaving(interval: Interval, before: Counts) -> Counts
    ensures { result ≡ counts_leaving interval before }
{
    if base_intervals::is_leaving(interval) && base_intervals::is_before_start(interval) {
        Counts { gap: 0, maximum: 0 }
    } else {
        before
    }
}

// The counts when an interval begins: minimum green loads the gap count with G, running clears the maximum count.
fn counts_entering(interval: Interval, times: PhaseTimes, before: Counts) -> Counts
    ensures { result ≡ counts_entering interval times before }
{
    Counts {
        gap: if base_intervals::is_minimum_green(interval) {
            times.gap
        } else {
            before.gap
        },
        maximum: if base_intervals::is_running(interval) {
            0
        } else {
            before.maximum
        },
    }
}

// The counts after a change of interval, by the interval that ends and the one that begins.
pub fn counts_changed(
    ended: bool,
    times: &Times,
    old: Position,
    now: Position,
    counted: Counts,
) -> Counts
    ensures { result ≡ counts_changed ended times.now old now counted }
{
    if ended {
        counts_entering(
            now.interval,
            step_counts::phase_times(times, now.phase),
            counts_leaving(old.interval, counted),
        )
    } else {
        counted
    }
}

// The locks after part 4: when minimum green begins, the lock of the phase is cleared.
#[tactic(auto, using(crate::proofs::Locks::locks_stand, crate::proofs::Locks::lock_cleared))]
pub fn locks_left(ended: bool, now: Position, locks: u8) -> u8
    requires { now.phase < 8 }
    ensures { result ≡ locks_left ended now locks }
{
    if ended && base_intervals::is_minimum_green(now.interval) {
        sets::without(locks, now.phase)
    } else {
        locks
    }
}

// Whether a phase starts: start red or all-red has ended.
pub fn starts(ended: bool, old: Position) -> bool
    ensures { result ≡ starts_at ended old }
{
    ended && base_intervals::is_before_start(old.interval)
}
