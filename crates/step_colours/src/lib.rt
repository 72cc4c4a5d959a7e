// The colours that the signal groups show in a state, one byte for each group.
#![tactic(auto, unfolding(rules::specs::IntervalTable::held_in, rules::specs::Colours::since_cut_off, rules::specs::Colours::closing, rules::specs::Colours::vehicle_colour, rules::specs::Colours::movement_colour, rules::specs::Colours::vehicle_shown))]

ghost use Rattle.std.specs.Prelude.{◌≤◌, ◌<◌, ◌&&◌, ◌≡◌, length, if◌then◌else◌};
ghost use Rattle.rules.specs.IntervalTable.{held_in};
ghost use Rattle.rules.specs.Colours.{red, yellow, green, since_cut_off, closing, vehicle_colour, movement_colour, vehicle_shown, colour_of, buffer_at};
ghost use Rattle.rules.specs.Call.{buffer_for};
ghost use Rattle.rules.specs.Verdicts.{Accepted};
ghost use Rattle.step_colours.specs.Showable.{Showable};
ghost use Rattle.step_colours.specs.Turn.{TurnOf};

use rules::site::{Group, PhaseTimes, Times};
use rules::state::{Interval, Movement, Position, Stage, State};
use site_sound::SoundSite;

// What a signal group shows, by its code. The colours are associated constants and no enum: the papers name this form.
#[derive(Clone, Copy)]
pub struct Colour {
    pub code: u8,
}

// Whether the set has the phase held.
fn held_in(held: Option<u8>, set: u8) -> bool
    ensures { result ≡ held_in held set }
{
    held.is_some_and(|phase| base_bytes::bit8(phase, set))
}

impl Colour {
    pub const RED: Colour = Colour { code: 0 };

    pub const YELLOW: Colour = Colour { code: 1 };

    pub const GREEN: Colour = Colour { code: 2 };

    pub const FLASHING: Colour = Colour { code: 3 };

    // A vehicle group of a phase that is being left: green while it stays so, yellow while it closes, then red.
    fn of_leaving(stays: bool, closes: bool) -> u8
        ensures { result ≡ if stays then green else (if closes then yellow else red) }
    {
        if stays {
            Self::GREEN.code
        } else if closes {
            Self::YELLOW.code
        } else {
            Self::RED.code
        }
    }

    // The colour of a vehicle group that has the state's phase in its set. In late start a group of mark 1 is red, except if its set has
    // came-from. In early cut-off green, yellow and all-red a group whose set also has the target stays green. Of the others, those of
    // mark 3 are yellow while `closes` is true, then red; the rest are green in early cut-off green, then yellow, then red.
    pub fn vehicle_colour(
        interval: Interval,
        closes: bool,
        previous: Option<u8>,
        target: Option<u8>,
        group: Group,
    ) -> u8
        ensures { result ≡ vehicle_colour interval closes previous target group }
    {
        match interval {
            Interval::StartRed => Self::RED.code,
            Interval::LateStart => {
                if group.mark == 1 && !held_in(previous, group.phases) {
                    Self::RED.code
                } else {
                    Self::GREEN.code
                }
            }
            Interval::MinimumGreen | Interval::Running => Self::GREEN.code,
            Interval::EarlyCutOff => {
                let stays = held_in(target, group.phases) || group.mark != 3;
                Self::of_leaving(stays, closes)
            }
            Interval::Yellow => {
                let closing = closes || group.mark != 3;
                Self::of_leaving(held_in(target, group.phases), closing)
            }
            Interval::AllRed => Self::of_leaving(held_in(target, group.phases), false),
        }
    }

    // The colour of a pedestrian group, by the stage of its movement.
    pub fn movement_colour(stage: Stage) -> u8
        ensures { result ≡ movement_colour stage }
    {
        match stage {
            Stage::Idle => Self::RED.code,
            Stage::Walk => Self::GREEN.code,
            Stage::ClearanceOne | Stage::ClearanceTwo => Self::FLASHING.code,
        }
    }
}

// The colour of a vehicle group in a position. It is red if the phase is not in its set.
pub fn vehicle_shown(closes: bool, position: Position, group: Group) -> u8
    ensures { result ≡ vehicle_shown closes position group }
{
    if base_bytes::bit8(position.phase, group.phases) {
        Colour::vehicle_colour(
            position.interval,
            closes,
            position.previous,
            position.target,
            group,
        )
    } else {
        Colour::RED.code
    }
}

// How many steps ago early cut-off green began, this step included, by the age in it or in yellow.
fn since_cut_off(interval: Interval, times: PhaseTimes, age: u16) -> u32
    ensures { result ≡ since_cut_off interval times age }
{
    let before = if base_intervals::is_early(interval) {
        0
    } else {
        times.early
    };
    u32::from(before) + u32::from(age)
}

// Whether Y steps from there are not over: the groups that stop early are still closing.
fn closing(times: &Times, position: Position) -> bool
    ensures { result ≡ closing times.now position }
{
    let own = step_counts::phase_times(times, position.phase);
    since_cut_off(position.interval, own, position.age) <= u32::from(own.yellow)
}

// The same, but false without section 7: then no group stops early, and the answer does not matter.
pub fn closing_there(early: bool, times: &Times, position: Position) -> bool
    ensures { result ≡ (early && closing times.now position) }
{
    early && closing(times, position)
}

// One turn of the pass: writes the colour of group g and answers how many pedestrian groups there are up to it. `stage` is that of its
// movement if it is a pedestrian group. It takes no array: an array by value would be copied at every turn.
fn pass_group(
    group: Group,
    stage: Stage,
    closes: bool,
    position: Position,
    g: usize,
    k: usize,
    buffer: &mut [u8],
) -> usize
    requires { (g < length buffer.old) × (k ≤ g) }
    ensures { TurnOf group stage closes position g buffer.old k buffer.new result }
{
    if group.mark == 2 {
        buffer[g] = Colour::movement_colour(stage);
        k + 1
    } else {
        buffer[g] = vehicle_shown(closes, position, group);
        k
    }
}

// Writes the colours of the groups in one pass. Of the state it takes only the parts that it needs: a struct parameter with an array that is
// read by a running index is copied whole.
fn buffer_at(
    groups: &[Group],
    closes: bool,
    position: Position,
    movements: [Movement; 8],
    buffer: &mut [u8],
)
    requires { Showable groups.now (length buffer.old) }
    ensures { buffer.new ≡ buffer_at (colour_of groups.now closes position movements) buffer.old (length groups.now) }
{
    let mut k = 0;
    for (g, group) in groups.iter().enumerate() {
        let stage = if group.mark == 2 {
            movements[k].stage
        } else {
            Stage::Idle
        };
        k = pass_group(*group, stage, closes, position, g, k, buffer);
    }
}

// Writes the colours of all groups to the start of the buffer. The bytes past them stay as they are.
pub fn buffer_for(site: &SoundSite, state: State, buffer: &mut [u8])
    requires { site.now.size.groups ≤ length buffer.old }
    ensures { buffer.new ≡ buffer_for Accepted site.now state buffer.old }
{
    buffer_at(
        site.groups(),
        closing_there(site.site.early, &site.site.times, state.position),
        state.position,
        state.movements,
        buffer,
    );
}
