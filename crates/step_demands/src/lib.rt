// Part 1 of a step: what detectors and buttons demand, the kept set, and the demanded phase that is next in the running order.
#![tactic(auto)]

ghost use Rattle.std.specs.Prelude.{◌<◌};
ghost use Rattle.step_demands.specs.Registered.{RegisteredBy};

use base_bytes::sets;
use rules::state::{Demands, KeptState};
use site_sound::SoundSite;
use step_demands_buttons::buttons;

mod phases;

// The result of part 1: the stored demands, the kept set, the next demanded phase other than the phase of the state, and whether a detector
// extends the phase of the state.
#[derive(Clone, Copy)]
pub struct Registered {
    pub demands: Demands,
    pub kept: u8,
    pub next: Option<u8>,
    pub extended: bool,
}

// Part 1. A registered lock or press adds its phase to the kept set. A phase is demanded if it is in the kept set or has a call.
pub fn register(site: &SoundSite, state: KeptState, inputs: u64) -> Registered
    requires { state.core.position.phase < site.now.size.phases }
    ensures { RegisteredBy site.now state inputs result }
{
    let core = state.core;
    let phase = core.position.phase;
    let pressed = buttons::press(
        core.demands.buttons,
        core.movements,
        &site.site.crossings,
        inputs,
    );
    let sensed = step_demands_detectors::sense(site.detectors(), inputs, phase);
    let green = phases::in_green(core.position);
    let locking = sets::except(sensed.locks, green);
    let calling = sets::except(sensed.calls, green);
    let kept = state.kept | locking | pressed.phases;
    Registered {
        demands: Demands {
            locks: core.demands.locks | locking,
            buttons: pressed.buttons,
        },
        kept,
        next: step_demands_ring::next_after(kept | calling, phase, site.ring()),
        extended: sensed.extended,
    }
}
