// The checks of a step call on its state and on its input bits.
#![tactic(auto, using(crate::proofs::Records::idle_valid), unfolding(rules::specs::State::interval_valid, rules::specs::State::target_valid, rules::specs::State::previous_valid, rules::specs::State::age_valid, rules::specs::State::position_valid, rules::specs::State::counts_valid, rules::specs::State::demands_valid, rules::specs::State::valid, rules::specs::Kept::kept_valid))]

ghost use Rattle.std.specs.Prelude.{◌≤◌, ◌≡◌};
ghost use Rattle.rules.specs.Call.{stray_input};
ghost use Rattle.rules.specs.Kept.{kept_valid};
ghost use Rattle.rules.specs.State.{interval_valid, target_valid, previous_valid, age_valid, position_valid, counts_valid, demands_valid, movement_valid, movements_valid, valid};

use base_bytes::sets;
use rules::site::PhaseTimes;
use rules::state::{Counts, Demands, Interval, KeptState, Movement, Position, State};
use site_sound::SoundSite;
use step_demands_buttons::movements;

// Ages are from 1 to 2,000 steps.
const HIGHEST_AGE: u16 = 2000;

// 2 ^ 48: input bits 0 to 47 are the detectors', those from 48 on the buttons'.
const BUTTON_BITS: u64 = 281474976710656;

fn age_valid(age: u16) -> bool
    ensures { result ≡ age_valid age }
{
    1 <= age && age <= HIGHEST_AGE
}

// Came-from is a phase or none.
fn previous_valid(phases: u8, previous: Option<u8>) -> bool
    ensures { result ≡ previous_valid phases previous }
{
    previous.is_none_or(|phase| phase < phases)
}

// Without a section of kind 7 a state in early cut-off green is not valid.
fn interval_valid(early: bool, interval: Interval) -> bool
    ensures { result ≡ interval_valid early interval }
{
    early || !base_intervals::is_early(interval)
}

// In early cut-off green, yellow and all-red the target is another phase below P. In the other intervals there is no target.
fn target_valid(phases: u8, phase: u8, leaving: bool, target: Option<u8>) -> bool
    ensures { result ≡ target_valid phases phase leaving target }
{
    match target {
        None => !leaving,
        Some(next) => leaving && next < phases && next != phase,
    }
}

// The phase below P, the interval, the target, came-from and the age.
fn position_valid(early: bool, phases: u8, position: Position) -> bool
    ensures { result ≡ position_valid early phases position }
{
    let leaving = base_intervals::is_leaving(position.interval);
    position.phase < phases
        && interval_valid(early, position.interval)
        && target_valid(phases, position.phase, leaving, position.target)
        && previous_valid(phases, position.previous)
        && age_valid(position.age)
}

// The gap count is at most G, and the maximum count at most X of the phase.
fn counts_valid(times: PhaseTimes, counts: Counts) -> bool
    ensures { result ≡ counts_valid times counts }
{
    counts.gap <= times.gap && counts.maximum <= times.maximum
}

// Locks only of phases that exist, button demands only of movements that exist.
fn demands_valid(phases: u8, count: u8, demands: Demands) -> bool
    requires { (phases ≤ 8) × (count ≤ 8) }
    ensures { result ≡ demands_valid phases count demands }
{
    sets::all_below(demands.locks, phases) && sets::all_below(demands.buttons, count)
}

// Whether a movement record is valid; `of_phase` says if it is a movement of the phase. An idle record has age 1. Any other has a valid age
// and is of the phase. It is not allowed in start red, and in early cut-off green, yellow and all-red it may only be in C2.
fn movement_valid(of_phase: bool, interval: Interval, movement: Movement) -> bool
    ensures { result ≡ movement_valid of_phase interval movement }
{
    if base_intervals::is_idle(movement.stage) {
        return movement.age == 1;
    }
    let holding = base_intervals::is_walk_or_first(movement.stage);
    age_valid(movement.age)
        && of_phase
        && !(base_intervals::is_leaving(interval) && holding)
        && !base_intervals::is_start_red(interval)
}

// Whether all movement records are valid. A record past the count belongs to no movement of the site, so it is of no phase. The rule tests all eight
// records and reads the whole row by the count, so the row is no slice of the site's own movements.
fn movements_valid(
    count: u8,
    crossings: &[u8; 8],
    position: Position,
    movements: [Movement; 8],
) -> bool
    ensures { result ≡ movements_valid count crossings.now position movements }
{
    for (k, movement) in movements.iter().enumerate() {
        let of_phase = k < usize::from(count) && base_bytes::bit8(position.phase, crossings[k]);
        if !movement_valid(of_phase, position.interval, *movement) {
            return false;
        }
    }
    true
}

// Whether the state is valid for the site, apart from its kept set.
fn valid(site: &SoundSite, state: State) -> bool
    ensures { result ≡ valid site.now state }
{
    let own = &site.site;
    let size = own.size;
    let position = state.position;
    let times = step_counts::phase_times(&own.times, position.phase);
    position_valid(own.early, size.phases, position)
        && counts_valid(times, state.counts)
        && demands_valid(size.phases, size.movements, state.demands)
        && movements_valid(size.movements, &own.crossings, position, state.movements)
}

// Whether the state is valid for the site, and its kept set equals a scan of its locks and demanded movements.
pub fn kept_valid(site: &SoundSite, state: KeptState) -> bool
    ensures { result ≡ kept_valid site.now state }
{
    valid(site, state.core) && state.kept == movements::stands(site.crossings(), state.core.demands)
}

// Whether an input bit is set that has no detector and no button.
pub fn stray_input(site: &SoundSite, inputs: u64) -> bool
    ensures { result ≡ stray_input site.now inputs }
{
    let size = site.site.size;
    let low = inputs % BUTTON_BITS;
    let high = inputs / BUTTON_BITS;
    low >> size.detectors != 0 || high >> size.movements != 0
}
