// What a change of times asks beside the plain step: whether a phase starts in the next step, and the state from which that start is a plain
// step under the new times.
#![tactic(auto, unfolding(rules::specs::TimedLaws::ready))]

ghost use Rattle.std.specs.Prelude.{true, ◌≡◌};
ghost use Rattle.rules.specs.Kept.{kept_valid};
ghost use Rattle.rules.specs.Timed.{starts_next};
ghost use Rattle.rules.specs.TimedLaws.{ready};

use rules::state::{Counts, KeptState, Movement, Position, Stage, State};
use site_sound::SoundSite;
use step_interval::ending;

// Start red or all-red ends in the next step, by the times of the site. The inputs of that step do not matter.
pub fn starts_next(site: &SoundSite, state: KeptState) -> bool
    requires { kept_valid site.now state ≡ true }
    ensures { result ≡ starts_next site.now state.core }
{
    let core = state.core;
    let old = core.position;
    if !base_intervals::is_before_start(old.interval) {
        return false;
    }
    let times = &site.site.times;
    let count = site.site.size.movements;
    ending::ends(
        old.interval,
        times.start,
        step_counts::phase_times(times, old.phase),
        old.age,
        false,
        step_movements::movements_after(times, false, core.movements, count),
        count,
        core.counts,
    )
}

// The state from which a phase starts in the next step, whatever the times are: the age is 2,000, both counts are 0, every movement is idle.
pub fn ready(state: KeptState) -> KeptState
    ensures { result ≡ ready state }
{
    let idle = Movement {
        stage: Stage::Idle,
        age: 1,
    };
    KeptState {
        core: State {
            position: Position {
                age: 2000,
                ..state.core.position
            },
            counts: Counts { gap: 0, maximum: 0 },
            movements: [idle; 8],
            ..state.core
        },
        ..state
    }
}
