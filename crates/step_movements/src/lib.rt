// Part 2 of a step: movements. Walk, C1 and C2 follow each other; each ends once its age is at least its setting. After C2 the movement is
// idle. A walk also goes on until it may end.
#![tactic(auto, unfolding(rules::specs::Movements::older, rules::specs::Movements::walk_may_end, rules::specs::Movements::lasting, rules::specs::Movements::advanced))]

ghost use Rattle.std.specs.Prelude.{◌≡◌};
ghost use Rattle.rules.specs.Movements.{older, walk_may_end, lasting, advanced, movements_after};
ghost use Rattle.step_movements.specs.IdlePast.{IdlePast};

use rules::site::{PhaseTimes, Times, WalkTimes};
use rules::state::{Counts, Interval, Movement, Stage};

// Ages go up to 2,000 steps.
const HIGHEST_AGE: u16 = 2000;

// The next age: one more, but at most 2,000.
pub fn older(age: u16) -> u16
    ensures { result ≡ older age }
{
    age.saturating_add(1).min(HIGHEST_AGE)
}

// Whether a walk of at least W steps may end: the interval is running, another phase is demanded, and the gap count is 0 or the maximum
// count has reached X. Interval and counts are those of the state handed in.
pub fn walk_may_end(interval: Interval, times: PhaseTimes, another: bool, counts: Counts) -> bool
    ensures { result ≡ walk_may_end interval times another counts }
{
    base_intervals::is_running(interval)
        && another
        && (counts.gap == 0 || counts.maximum == times.maximum)
}

// One step of a stage: it ends if its age is at least the setting and it may end, and `next` follows.
fn lasting(may_end: bool, setting: u16, next: Stage, movement: Movement) -> Movement
    ensures { result ≡ lasting may_end setting movement.stage next movement.age }
{
    if may_end && setting <= movement.age {
        Movement {
            stage: next,
            age: 1,
        }
    } else {
        Movement {
            age: older(movement.age),
            ..movement
        }
    }
}

// One movement after a step. Only a walk waits until it may end.
fn advanced(may_end: bool, times: WalkTimes, movement: Movement) -> Movement
    ensures { result ≡ advanced may_end movement.stage times movement.age }
{
    match movement.stage {
        Stage::Idle => movement,
        Stage::Walk => lasting(may_end, times.walk, Stage::ClearanceOne, movement),
        Stage::ClearanceOne => lasting(true, times.first, Stage::ClearanceTwo, movement),
        Stage::ClearanceTwo => lasting(true, times.second, Stage::Idle, movement),
    }
}

// All movements after a step. `count` is the number of movements of the site; the records past them are idle and do not change. They stand in the row
// that a state has, of fixed size, so the row is no slice of the first `count`.
pub fn movements_after(
    times: &Times,
    may_end: bool,
    movements: [Movement; 8],
    count: u8,
) -> [Movement; 8]
    requires { IdlePast count movements }
    ensures { result ≡ movements_after times.now may_end movements }
{
    let mut out = movements;
    // k is counted: a zip of the movements and their times hides the row from the loop's invariant, and the proof does not close.
    for (k, movement) in out[..usize::from(count)].iter_mut().enumerate() {
        *movement = advanced(may_end, times.walks[k], *movement);
    }
    out
}
