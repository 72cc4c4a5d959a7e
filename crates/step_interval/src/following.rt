// Part 4 of a step: what follows an interval.
ghost use Rattle.std.specs.Prelude.{◌≡◌};
ghost use Rattle.rules.specs.Interval.{entering, starting, leaving, following, staying, position_after};

use rules::site::Times;
use rules::state::{Interval, Position};

// The next interval of the same phase, at age 1.
fn entering(interval: Interval, target: Option<u8>, position: Position) -> Position
    ensures { result ≡ entering interval target position }
{
    Position {
        interval,
        age: 1,
        target,
        ..position
    }
}

// The position in which a phase starts: late start, or minimum green if its L is 0.
fn starting(times: &Times, phase: u8, previous: Option<u8>) -> Position
    ensures { result ≡ starting times.now phase previous }
{
    let interval = if step_counts::phase_times(times, phase).late == 0 {
        Interval::MinimumGreen
    } else {
        Interval::LateStart
    };
    Position {
        phase,
        interval,
        age: 1,
        previous,
        target: None,
    }
}

// The position after running: early cut-off green, or yellow if E is 0. The phase that is demanded next in this step becomes the target.
fn leaving(times: &Times, next: Option<u8>, position: Position) -> Position
    ensures { result ≡ leaving times.now next position }
{
    let interval = if step_counts::phase_times(times, position.phase).early == 0 {
        Interval::Yellow
    } else {
        Interval::EarlyCutOff
    };
    entering(interval, next, position)
}

// The position after the interval has ended. The target is chosen when running ends, and then kept.
fn following(times: &Times, next: Option<u8>, position: Position) -> Position
    ensures { result ≡ following position.interval times.now next position }
{
    match position.interval {
        Interval::StartRed => starting(times, position.phase, position.previous),
        Interval::LateStart => entering(Interval::MinimumGreen, None, position),
        Interval::MinimumGreen => entering(Interval::Running, None, position),
        Interval::Running => leaving(times, next, position),
        Interval::EarlyCutOff => entering(Interval::Yellow, position.target, position),
        Interval::Yellow => entering(Interval::AllRed, position.target, position),
        // the target of all-red is a phase
        Interval::AllRed => starting(times, position.target.unwrap_or(0), Some(position.phase)),
    }
}

// The same interval, a step older.
fn staying(position: Position) -> Position
    ensures { result ≡ staying position }
{
    Position {
        age: step_movements::older(position.age),
        ..position
    }
}

// The position after part 4.
pub fn position_after(ended: bool, times: &Times, next: Option<u8>, position: Position) -> Position
    ensures { result ≡ position_after ended times.now next position }
{
    if ended {
        following(times, next, position)
    } else {
        staying(position)
    }
}
