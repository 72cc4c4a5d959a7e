// A table row for each interval and each stage, and tests that read the row.
#![tactic(auto)]

ghost use Rattle.std.specs.Prelude.{◌<◌, ◌≡◌, ltb, length, get_or};
ghost use Rattle.rules.specs.declared.state.Interval.TheVariants.{StartRed};
ghost use Rattle.rules.specs.declared.state.Stage.TheVariants.{Idle};
ghost use Rattle.rules.specs.IntervalTable.{interval_row, intervals, is_running, is_minimum_green, is_green, is_early, is_leaving, is_before_start, is_start_red, stage_row, stages, is_idle, is_walk, is_walk_or_first, is_second};

use rules::state::{Interval, IntervalRow, Stage, StageRow};

// ---- Intervals ----

#[tactic(auto, unfolding(rules::specs::IntervalTable::interval_row))]
pub fn interval_row(interval: Interval) -> IntervalRow
    ensures { result ≡ interval_row interval }
{
    match interval {
        Interval::StartRed => IntervalRow {
            code: 0,
            letter: b'S',
            start: true,
            minimum: false,
            running: false,
            green: false,
            early: false,
            leaving: false,
            starts: true,
        },
        Interval::LateStart => IntervalRow {
            code: 1,
            letter: b'L',
            start: false,
            minimum: false,
            running: false,
            green: false,
            early: false,
            leaving: false,
            starts: false,
        },
        Interval::MinimumGreen => IntervalRow {
            code: 2,
            letter: b'M',
            start: false,
            minimum: true,
            running: false,
            green: true,
            early: false,
            leaving: false,
            starts: false,
        },
        Interval::Running => IntervalRow {
            code: 3,
            letter: b'G',
            start: false,
            minimum: false,
            running: true,
            green: true,
            early: false,
            leaving: false,
            starts: false,
        },
        Interval::EarlyCutOff => IntervalRow {
            code: 4,
            letter: b'E',
            start: false,
            minimum: false,
            running: false,
            green: false, // its detectors lock, as in yellow
            early: true,
            leaving: true,
            starts: false,
        },
        Interval::Yellow => IntervalRow {
            code: 5,
            letter: b'Y',
            start: false,
            minimum: false,
            running: false,
            green: false,
            early: false,
            leaving: true,
            starts: false,
        },
        Interval::AllRed => IntervalRow {
            code: 6,
            letter: b'R',
            start: false,
            minimum: false,
            running: false,
            green: false,
            early: false,
            leaving: true,
            starts: true,
        },
    }
}

// Whether the code is one of an interval.
pub fn interval_known(code: u8) -> bool
    ensures { result ≡ ltb code (length intervals) }
{
    code < 7
}

// The interval with this code.
pub fn interval_of(code: u8) -> Interval
    requires { code < length intervals }
    ensures { result ≡ get_or intervals code StartRed }
{
    match code {
        1 => Interval::LateStart,
        2 => Interval::MinimumGreen,
        3 => Interval::Running,
        4 => Interval::EarlyCutOff,
        5 => Interval::Yellow,
        6 => Interval::AllRed,
        _ => Interval::StartRed,
    }
}

pub fn is_start_red(interval: Interval) -> bool
    ensures { result ≡ is_start_red interval }
{
    interval_row(interval).start
}

pub fn is_minimum_green(interval: Interval) -> bool
    ensures { result ≡ is_minimum_green interval }
{
    interval_row(interval).minimum
}

pub fn is_running(interval: Interval) -> bool
    ensures { result ≡ is_running interval }
{
    interval_row(interval).running
}

pub fn is_green(interval: Interval) -> bool
    ensures { result ≡ is_green interval }
{
    interval_row(interval).green
}

pub fn is_early(interval: Interval) -> bool
    ensures { result ≡ is_early interval }
{
    interval_row(interval).early
}

pub fn is_leaving(interval: Interval) -> bool
    ensures { result ≡ is_leaving interval }
{
    interval_row(interval).leaving
}

pub fn is_before_start(interval: Interval) -> bool
    ensures { result ≡ is_before_start interval }
{
    interval_row(interval).starts
}

// ---- Stages ----

#[tactic(auto, unfolding(rules::specs::IntervalTable::stage_row))]
pub fn stage_row(stage: Stage) -> StageRow
    ensures { result ≡ stage_row stage }
{
    match stage {
        Stage::Idle => StageRow {
            code: 0,
            idle: true,
            walk: false,
            holding: false,
            second: false,
        },
        Stage::Walk => StageRow {
            code: 1,
            idle: false,
            walk: true,
            holding: true,
            second: false,
        },
        Stage::ClearanceOne => StageRow {
            code: 2,
            idle: false,
            walk: false,
            holding: true,
            second: false,
        },
        Stage::ClearanceTwo => StageRow {
            code: 3,
            idle: false,
            walk: false,
            holding: false,
            second: true,
        },
    }
}

// Whether the code is one of a stage.
pub fn stage_known(code: u8) -> bool
    ensures { result ≡ ltb code (length stages) }
{
    code < 4
}

// The stage with this code. The code is below 4, so code % 4 is the code, and the match needs only four cases.
pub fn stage_of(code: u8) -> Stage
    requires { code < length stages }
    ensures { result ≡ get_or stages code Idle }
{
    match code % 4 {
        1 => Stage::Walk,
        2 => Stage::ClearanceOne,
        3 => Stage::ClearanceTwo,
        _ => Stage::Idle,
    }
}

pub fn is_idle(stage: Stage) -> bool
    ensures { result ≡ is_idle stage }
{
    stage_row(stage).idle
}

pub fn is_walk(stage: Stage) -> bool
    ensures { result ≡ is_walk stage }
{
    stage_row(stage).walk
}

// Walk or first clearance.
pub fn is_walk_or_first(stage: Stage) -> bool
    ensures { result ≡ is_walk_or_first stage }
{
    stage_row(stage).holding
}

pub fn is_second(stage: Stage) -> bool
    ensures { result ≡ is_second stage }
{
    stage_row(stage).second
}
