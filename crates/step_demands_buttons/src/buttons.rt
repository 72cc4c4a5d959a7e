// The buttons: the demands that they register, and the phases that these keep.
ghost use Rattle.std.specs.Prelude.{◌≡◌};
ghost use Rattle.laws.specs.Folds.{set_of};
ghost use Rattle.rules.specs.IntervalTable.{is_walk};
ghost use Rattle.rules.specs.Demands.{buttons_after};
ghost use Rattle.rules.specs.Kept.{press_keeps};

use base_bytes::sets;
use rules::state::{Movement, Stage};

// The set of the stored button demands, and the set of the phases whose movements register a press in this step.
#[derive(Clone, Copy)]
pub struct Pressed {
    pub buttons: u8,
    pub phases: u8,
}

// Whether a press is dropped in this stage: in walk, but not in a clearance.
fn dropped(stage: Stage) -> bool
    ensures { result ≡ is_walk stage }
{
    base_intervals::is_walk(stage)
}

// Registers the pressed buttons. A press demands its movement, unless the movement is in walk, and adds its phase to the kept set. Button k
// is input bit 48 + k. Each turn of the loop takes the lowest button that is left.
pub fn press(buttons: u8, movements: [Movement; 8], crossings: &[u8; 8], inputs: u64) -> Pressed
    ensures { (result.buttons ≡ buttons_after buttons movements inputs) × (result.phases ≡ set_of (press_keeps movements crossings.now 8 inputs)) }
{
    let mut out = Pressed { buttons, phases: 0 };
    let mut rest = (inputs >> 48) % 256;
    while rest != 0 {
        let k = rest.trailing_zeros() as u8;
        let i = usize::from(k);
        if !dropped(movements[i].stage) {
            out.buttons = sets::with(out.buttons, k);
            out.phases |= crossings[i];
        }
        rest &= rest - 1;
    }
    out
}
