// Why the phase of a state in running holds.
#![tactic(auto)]

ghost use Rattle.std.specs.Prelude.{◌≡◌};
ghost use Rattle.laws.specs.Folds.{set_of};
ghost use Rattle.panel_reasons.specs.PanelLine.{no_other, walking_among};
ghost use Rattle.panel_reasons.specs.Holding.{Holding, Tells};

use base_bytes::sets;
use base_intervals::is_walk_or_first;
use panel_line::Why;
use rules::state::{KeptState, Movement};
use site_sound::SoundSite;
use step_counts::phase_times;
use step_demands_detectors::sense;
use step_demands_ring::next_after;

// Whether no other phase is in the kept set or has a call. The phase itself is running, so no call of it counts.
fn no_other(site: &SoundSite, state: KeptState, inputs: u64) -> bool
    requires { Holding site.now state }
    ensures { result ≡ no_other site.now state inputs }
{
    let phase = state.core.position.phase;
    let sensed = sense(site.detectors(), inputs, phase);
    let calling = sets::without(sensed.calls, phase);
    next_after(state.kept | calling, phase, site.ring()).is_none()
}

// The movements in walk or C1, as a set.
fn walking(movements: [Movement; 8]) -> u8
    ensures { result ≡ set_of (walking_among movements) }
{
    let mut set: u8 = 0;
    for k in 0..8 {
        if is_walk_or_first(movements[usize::from(k)].stage) {
            set = sets::with(set, k);
        }
    }
    set
}

// What the line says of the state. The site has the times that rule in it.
pub fn why_of(site: &SoundSite, state: KeptState, inputs: u64) -> Why
    requires { Holding site.now state }
    ensures { Tells site.now state inputs result }
{
    let core = state.core;
    let own = phase_times(&site.site.times, core.position.phase);
    Why {
        phase: core.position.phase,
        alone: no_other(site, state, inputs),
        gap: core.counts.gap,
        left: own.maximum - core.counts.maximum,
        walks: walking(core.movements),
    }
}
