// Part 4 of a step: the interval. When it ends, what follows, and what a change does. At most one change is made in a step.
#![tactic(auto, unfolding(rules::specs::Interval::ends, rules::specs::Interval::entering, rules::specs::Interval::starting, rules::specs::Interval::leaving, rules::specs::Interval::following, rules::specs::Interval::staying, rules::specs::Interval::position_after, rules::specs::Interval::counts_leaving, rules::specs::Interval::counts_entering, rules::specs::Interval::counts_changed, rules::specs::Interval::clears_lock, rules::specs::Interval::locks_left, rules::specs::Interval::starts, rules::specs::IntervalTable::phase_held))]

pub mod changes;
pub mod ending;
pub mod following;
