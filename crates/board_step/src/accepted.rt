// The parts of a step from a valid state, with inputs and a buffer that fit the site.
#![tactic(auto)]

ghost use Rattle.std.specs.Prelude.{◌≤◌, true, ◌++◌, ◌≡◌, length, drop};
ghost use Rattle.rules.specs.Colours.{colours_of};
ghost use Rattle.rules.specs.WaitBound.{wait_bound};
ghost use Rattle.state_timed.specs.TimedLayout.{is_timed, timed_decoded, timed_encoded};
ghost use Rattle.board_step.specs.Accepted.{Stepping, takes_over_in, after};

use rules::state::KeptState;
use site_sound::SoundSite;
use state_timed::{PRESENT, REST};

// Whether times wait and rule from this step on.
pub fn takes_over(site: &SoundSite, before: KeptState, state: &[u8]) -> bool
    requires { Stepping site.now before state.now }
    ensures { result ≡ takes_over_in site.now state.now }
{
    state[PRESENT] != 0 && step_change::starts_next(site, before)
}

// Writes the state after the step. If times that waited take over, they are those of the site, and none wait after it; else the times stay.
pub fn put_next(state: &mut [u8], site: &SoundSite, next: KeptState, over: bool)
    requires { is_timed state.old ≡ true }
    ensures { state.new ≡ timed_encoded (after site.now next over (timed_decoded state.old)) }
{
    if over {
        state_timed::put_settled(state, next, site.site.times);
    } else {
        state_bytes::put(state, REST, next);
    }
}

// Writes the colours of the new state and answers the wait bound, both by the times of the site.
pub fn shown(site: &SoundSite, next: KeptState, colours: &mut [u8]) -> u32
    requires { site.now.size.groups ≤ length colours.old }
    ensures { (result ≡ wait_bound site.now)
        × (colours.new ≡ colours_of site.now next.core ++ drop site.now.size.groups colours.old) }
{
    step_colours::buffer_for(site, next.core, colours);
    wait_bound::wait_bound(site)
}
