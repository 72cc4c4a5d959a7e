// One step on an accepted site: the five parts, in order.
#![tactic(auto)]

ghost use Rattle.std.specs.Prelude.{true, ◌≡◌};
ghost use Rattle.rules.specs.Kept.{kept_valid, kept_stepped};

use rules::state::{Demands, KeptState, State};
use site_sound::SoundSite;
use step_interval::{changes, ending, following};

mod kept;

// The state after a step from a valid state of an accepted site.
pub fn kept_stepped(site: &SoundSite, state: KeptState, inputs: u64) -> KeptState
    requires { kept_valid site.now state ≡ true }
    ensures { result ≡ kept_stepped site.now state inputs }
{
    let core = state.core;
    let old = core.position;
    let times = &site.site.times;
    let own = step_counts::phase_times(times, old.phase);
    let count = site.site.size.movements;
    // 1. demands
    let asked = step_demands::register(site, state, inputs);
    let another = asked.next.is_some();
    // 2. movements
    let may_end = step_movements::walk_may_end(old.interval, own, another, core.counts);
    let moved = step_movements::movements_after(times, may_end, core.movements, count);
    // 3. counts
    let counted = step_counts::counts_after(
        old.interval,
        own,
        asked.extended,
        another,
        core.counts,
    );
    // 4. interval
    let ended = ending::ends(
        old.interval,
        times.start,
        own,
        old.age,
        another,
        moved,
        count,
        counted,
    );
    let now = following::position_after(ended, times, asked.next, old);
    // 5. walks
    let walked = step_walks::begun_by(
        &site.site.crossings,
        changes::starts(ended, old),
        another,
        now,
        asked.demands.buttons,
        moved,
    );
    let demands = Demands {
        locks: changes::locks_left(ended, now, asked.demands.locks),
        buttons: walked.buttons,
    };
    // A name of its own: the borrow checker does not cover an array that is moved out of a field straight into a struct literal.
    let movements = walked.movements;
    KeptState {
        core: State {
            position: now,
            counts: changes::counts_changed(ended, times, old, now, counted),
            demands,
            movements,
        },
        kept: kept::kept_left(site.crossings(), asked.demands, demands, asked.kept),
    }
}
