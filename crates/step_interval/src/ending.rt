// Part 4 of a step: when the interval ends.
ghost use Rattle.std.specs.Prelude.{◌≡◌};
ghost use Rattle.std.specs.List.{list_any};
ghost use Rattle.rules.specs.IntervalTable.{is_walk_or_first, is_second};
ghost use Rattle.rules.specs.Interval.{ends};
ghost use Rattle.step_movements.specs.IdlePast.{IdlePast};

use rules::site::PhaseTimes;
use rules::state::{Counts, Interval, Movement};

// This and the next are functions of their own: with the closures straight in `ends`, the proof of what `ends` returns does not close.

// Whether some of the movements is in walk or C1.
fn some_walking(movements: &[Movement]) -> bool
    ensures { result ≡ list_any (λ m. is_walk_or_first m.stage) movements.now }
{
    movements
        .iter()
        .any(|m| base_intervals::is_walk_or_first(m.stage))
}

// Whether some of the movements is in C2.
fn some_clearing(movements: &[Movement]) -> bool
    ensures { result ≡ list_any (λ m. is_second m.stage) movements.now }
{
    movements.iter().any(|m| base_intervals::is_second(m.stage))
}

// Whether the interval ends. Running ends if another phase is demanded, the gap is over or the maximum is used up, and no movement is in
// walk or C1. All-red ends when its age has reached R, but not while a movement is in C2. Every other interval ends when its age has
// reached its setting. It looks at the site's own movements only: the records past them are idle. The rule reads all eight records, so the row comes
// whole: with a slice of the first `count` each caller would have to prove that the rest adds nothing.
pub fn ends(
    interval: Interval,
    start: u16,
    times: PhaseTimes,
    age: u16,
    another: bool,
    movements: [Movement; 8],
    count: u8,
    counted: Counts,
) -> bool
    requires { IdlePast count movements }
    ensures { result ≡ ends interval start times age another movements counted }
{
    let own = &movements[..usize::from(count)];
    match interval {
        Interval::StartRed => start <= age,
        Interval::LateStart => times.late <= age,
        Interval::MinimumGreen => times.minimum <= age,
        Interval::Running => {
            let due = counted.gap == 0 || counted.maximum == times.maximum;
            another && due && !some_walking(own)
        }
        Interval::EarlyCutOff => times.early <= age,
        Interval::Yellow => times.yellow <= age,
        Interval::AllRed => times.red <= age && !some_clearing(own),
    }
}
